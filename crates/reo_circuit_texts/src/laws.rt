//! Laws of what the texts of circuits say. Each function calls laws alone: its contract is a law.
ghost use Rattle.reo_circuit_texts.specs.Laws.{CircuitNamesArePlain, CircuitsAreSpelled, OneCircuitProgram};

use reo_expand::{expansions_are_few, expansions_are_spelled};
use reo_flat::names_are_plain;
use reo_syntax_laws::{programs_are_spelled, programs_two_are_spelled};

/// The program that a text says, or stands for, is spelled as such programs are.
pub fn circuits_are_spelled()
    ensures { CircuitsAreSpelled }
{
    programs_are_spelled();
    programs_two_are_spelled();
    expansions_are_spelled();
}

/// None of its names has the byte `@`, so that paths are told from names.
pub fn circuit_names_are_plain()
    ensures { CircuitNamesArePlain }
{
    names_are_plain();
    programs_two_are_spelled();
    expansions_are_spelled();
    expansions_are_few();
}

/// No text says, or stands for, two programs.
pub fn one_circuit_program()
    ensures { OneCircuitProgram }
{}
