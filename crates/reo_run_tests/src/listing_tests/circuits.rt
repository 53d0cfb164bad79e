//! How the tests come to what is listed of circuits.
ghost use Rattle.std.specs.Prelude.{◌≡◌, ◌<◌, IfSome};
ghost use Rattle.std.specs.List.{All};
ghost use Rattle.reo_syntax_laws.specs.trees_laws.Spelled.{IsSpelled};
ghost use Rattle.reo_rules.specs.Scopes.{connectors_of};
ghost use Rattle.reo_flat.specs.flatten_laws.Plain.{HasPlainNames};

use reo_flat::names_are_plain;
use reo_flatten::{Flat, flatten};
use reo_listing::{fault_line, list, tables_text};
use reo_parser::parse;
use reo_steps::Steps;
use reo_syntax_laws::programs_are_spelled;
use reo_trees::Program;
use reo_values::{Bytes, NoMemory};
use std::alloc::Global;
use std::marker::Brand;
use std::process::Abort;
use std::sync::ledger::{Blank, Ledger};
use std::test::Fail;

/// A circuit text, a budget, and what is written of the circuit's tables.
#[derive(Clone, Copy)]
pub struct Case<'a> {
    pub circuit: &'a [u8],
    pub budget: u32,
    pub text: &'a [u8],
}

/// The program of a short text.
fn program_of(alloc: Global, text: &[u8]) -> Option<Program>
    ensures spelled { IfSome result (λ program. IsSpelled program) }
    ensures plain { IfSome result (λ program.
        All HasPlainNames (connectors_of program.declarations)) }
{
    names_are_plain();
    programs_are_spelled();
    if 65536 <= text.len() {
        return None;
    }
    match parse(alloc, text) {
        Ok(program) => Some(program),
        Err(_) => None,
    }
}

/// The circuit of a short text.
fn flat_of(alloc: Global, text: &[u8]) -> Option<Flat> {
    let program = program_of(alloc, text)?;
    match flatten(alloc, &program) {
        Ok(flat) => Some(flat),
        Err(_) => None,
    }
}

/// What is written of the tables of a circuit.
fn listing<L: Ledger>(
    alloc: Global,
    flat: &Flat,
    budget: u32,
    blank: Blank,
) -> Result<Bytes, NoMemory>
    requires name { blank.name ≡ L.name }
    requires parts { blank.parts ≡ L.parts }
    requires some_part { 0 < L.parts }
{
    let budget = u64::from(budget);
    let mut steps = Steps::<L>::new(blank);
    match list(alloc, flat, budget, &mut steps) {
        Ok(tables) => tables_text(alloc, flat.ports.list.as_slice(), tables.as_slice()),
        Err(fault) => fault_line(alloc, fault, budget),
    }
}

/// Whether a case is right.
fn is_listed(alloc: Global, case: Case<'_>) -> Result<bool, NoMemory> {
    let Some(flat) = flat_of(alloc, case.circuit) else {
        return Ok(false);
    };
    let text = listing::<Brand>(alloc, &flat, case.budget, Blank::new(1))?;
    Ok(text.as_slice() == case.text)
}

/// The test stops where a case is wrong. The line names the circuit.
pub fn check(rt: &impl Abort, alloc: Global, case: Case<'_>) -> Result<(), Fail> {
    let right = is_listed(alloc, case)?;
    let line = str::from_utf8(case.circuit).unwrap_or("");
    assert!(rt; right, "{line}");
    Ok(())
}
