//! The circuit of a text.
ghost use Rattle.std.specs.Prelude.{IfSome};
ghost use Rattle.std.specs.List.{All};
ghost use Rattle.reo_syntax_laws.specs.trees_laws.Spelled.{IsSpelled};
ghost use Rattle.reo_rules.specs.Scopes.{connectors_of};
ghost use Rattle.reo_flat.specs.flatten_laws.Plain.{HasPlainNames};

use reo_flat::names_are_plain;
use reo_flatten::flatten;
use reo_kinds::Kind;
use reo_net_circuit::Circuit;
use reo_parser::parse;
use reo_syntax_laws::programs_are_spelled;
use reo_trees::Program;
use std::alloc::Global;

/// The program of a short text.
fn program_of(alloc: Global, text: &[u8]) -> Option<Program>
    ensures spelled { IfSome result (λ program. IsSpelled program) }
    ensures plain { IfSome result (λ program.
        All HasPlainNames (connectors_of program.declarations)) }
{
    names_are_plain();
    programs_are_spelled();
    if 65536 <= text.len() {
        return None;
    }
    match parse(alloc, text) {
        Ok(program) => Some(program),
        Err(_) => None,
    }
}

/// The flat circuit of a short text, where that is none that is refused.
pub fn circuit_of(alloc: Global, text: &[u8]) -> Option<Circuit<Kind>> {
    let program = program_of(alloc, text)?;
    match flatten(alloc, &program) {
        Ok(flat) => Some(flat.circuit),
        Err(_) => None,
    }
}
