//! The search by parts beside the plain search, which goes through all colourings: on small
//! circuits that chance puts together, both find the same rows and items, round for round. So does
//! arranging part by part.
#![tactic(auto)]

ghost use Rattle.std.specs.Prelude.{◌≡◌, ◌<◌};

mod arranged;
mod bounds;
mod chance;
mod engines;
mod parts;
mod rounds;
mod sets;
mod tally;
mod texts;
mod values;

use crate::chance::Chance;
use crate::engines::engine_of;
use crate::rounds::rounds_agree;
use crate::tally::{SearchTally, count, empty_tally};
use crate::texts::text_of;
use reo_engine::Exceeds;
use reo_runner::release_engine;
use reo_steps::Steps;
use std::alloc::Global;
use std::io::{self, ErrorKind};
use std::marker::Brand;
use std::sync::ledger::{Blank, Ledger};

/// Whether both searches agree in all rounds on the circuit of a text, if it is one.
fn agree_on<L: Ledger>(
    alloc: Global,
    text: &str,
    steps: &mut Steps<L>,
    chance: &mut Chance,
    tally: &mut SearchTally,
) -> Result<bool, Exceeds> {
    match engine_of(alloc, text.as_bytes()) {
        Some(engine) => {
            let mut engine = engine;
            count(&mut tally.circuits, true);
            let agreed = rounds_agree(alloc, &mut engine, steps, chance, tally);
            release_engine(engine);
            agreed
        }
        None => {
            count(&mut tally.refused, true);
            Ok(true)
        }
    }
}

/// Compares the searches on one circuit text.
fn compare<L: Ledger>(
    rt: &HostRuntime,
    steps: &mut Steps<L>,
    chance: &mut Chance,
    tally: &mut SearchTally,
) -> io::Result<()> {
    let text = text_of(rt.alloc(), chance)?;
    match agree_on(rt.alloc(), text.as_str(), steps, chance, tally) {
        Ok(true) => Ok(()),
        Ok(false) => {
            println!(rt; "it differs on {text}")?;
            Err(ErrorKind::Other.into())
        }
        Err(fault) => {
            println!(rt; "{fault:?} on {text}")?;
            Err(ErrorKind::Other.into())
        }
    }
}

/// Compares the searches on texts one after the other, and shows how much was compared.
fn compare_all<L: Ledger>(rt: &HostRuntime, blank: Blank) -> io::Result<()>
    requires name { blank.name ≡ L.name }
    requires parts { blank.parts ≡ L.parts }
    requires some_part { 0 < L.parts }
{
    let mut steps = Steps::<L>::new(blank);
    let mut chance = Chance::new(1);
    let mut tally = empty_tally();
    for _ in 0..1000 {
        compare(rt, &mut steps, &mut chance, &mut tally)?;
    }
    let SearchTally {
        refused,
        circuits,
        rounds,
        idle,
        jammed,
        parts,
        loops,
        heavy,
        greatest,
        arranged,
    } = tally;
    println!(rt;
        "{circuits} circuits, {refused} texts passed over; \
{rounds} rounds, {idle} idle, {jammed} with a jam; {parts} parts, {loops} with loop joints, \
{heavy} of a weight above 1, {greatest} at most, {arranged} arranged: none differs"
    )
}

fn main(rt: HostRuntime) -> io::Result<()> {
    compare_all::<Brand>(&rt, Blank::new(1))
}
