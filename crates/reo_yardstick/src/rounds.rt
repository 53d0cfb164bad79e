//! Rounds that are arranged and planned by parts, and searched plainly.
use crate::arranged::all_arranged;
use crate::chance::Chance;
use crate::parts::count_parts;
use crate::tally::{SearchTally, count};
use reo_engine::{Engine, Exceeds, Plan};
use reo_kinds::Kind;
use reo_net::plain_first;
use reo_net_base::{Colouring, Offer};
use reo_steps::Steps;
use reo_values::{Value, same_item};
use std::alloc::Global;
use std::sync::ledger::Ledger;

/// A budget that no part of these circuits is over.
const BUDGET: u64 = 1_000_000;

/// Whether the same items stand at two joints, or none at both.
fn same_at(one: &Option<Value>, other: &Option<Value>) -> bool {
    match (one, other) {
        (Some(one), Some(other)) => same_item(one, other),
        (None, None) => true,
        _ => false,
    }
}

/// Whether the same items stand at all joints.
fn same_items(one: &[Option<Value>], other: &[Option<Value>]) -> bool {
    if one.len() != other.len() {
        return false;
    }
    for joint in 0..one.len() {
        if !same_at(&one[joint], &other[joint]) {
            return false;
        }
    }
    true
}

/// Whether two colourings have the same rows and items.
fn same(one: &Colouring, other: &Colouring) -> bool {
    one.rows.as_slice() == other.rows.as_slice()
        && same_items(one.items.as_slice(), other.items.as_slice())
}

/// Whether a plan by parts has this colouring.
fn agrees<L: Ledger>(
    alloc: Global,
    engine: &Engine<Kind>,
    steps: &mut Steps<L>,
    plain: &Colouring,
) -> Result<bool, Exceeds> {
    let plan = engine.plan(alloc, BUDGET, steps)?;
    Ok(same(&plan.colouring, plain))
}

/// Whether plans of the next round have a colouring: a first one, and a second one, before which
/// parts may be prepared.
fn plans_agree<L: Ledger>(
    alloc: Global,
    engine: &mut Engine<Kind>,
    steps: &mut Steps<L>,
    plain: &Colouring,
    prepared: bool,
) -> Result<bool, Exceeds> {
    if !agrees(alloc, engine, steps, plain)? {
        return Ok(false);
    }
    if prepared {
        engine.prepare(alloc, BUDGET, steps)?;
    }
    agrees(alloc, engine, steps, plain)
}

/// Whether the parts that are arranged, and the plans of the next round, have the colouring of the
/// plain search.
fn all_agree<L: Ledger>(
    alloc: Global,
    engine: &mut Engine<Kind>,
    steps: &mut Steps<L>,
    prepared: bool,
    tally: &mut SearchTally,
) -> Result<bool, Exceeds> {
    engine.known();
    let turn = engine.rounds() + 1;
    let plain = plain_first(alloc, engine.circuit(), turn)?;
    if !all_arranged(alloc, engine.circuit(), &plain, turn, steps, tally)? {
        return Ok(false);
    }
    plans_agree(alloc, engine, steps, &plain, prepared)
}

/// Changes what is offered at a port, or nothing.
fn change_offer(engine: &mut Engine<Kind>, chance: &mut Chance, port: usize) {
    match chance.below(8) {
        0 => {
            let _was = engine.withdraw(port);
        }
        1..=3 => {
            let _taken = engine.offer(port, Offer::Take);
        }
        4..=6 => {
            let number = Value::Int(chance.below(4) as i64);
            let _taken = engine.offer(port, Offer::Write(number));
        }
        _ => {}
    }
}

/// Makes a round of a plan, if it suits.
fn make(engine: &mut Engine<Kind>, plan: Plan, tally: &mut SearchTally) {
    if engine.suits(&plan) && engine.rounds() < 1000 {
        count(&mut tally.rounds, true);
        count(&mut tally.idle, plan.idle);
        count(&mut tally.jammed, 0 < plan.jammed);
        let _done = engine.commit(plan);
    }
}

/// Makes rounds, and answers whether all their plans have the colouring of the plain search.
pub fn rounds_agree<L: Ledger>(
    alloc: Global,
    engine: &mut Engine<Kind>,
    steps: &mut Steps<L>,
    chance: &mut Chance,
    tally: &mut SearchTally,
) -> Result<bool, Exceeds> {
    for _ in 0..8 {
        for port in 0..engine.circuit().ports() {
            change_offer(engine, chance, port);
        }
        count_parts(alloc, engine.circuit(), steps, tally)?;
        let prepared = chance.below(2) == 0;
        if !all_agree(alloc, engine, steps, prepared, tally)? {
            return Ok(false);
        }
        let plan = engine.plan(alloc, BUDGET, steps)?;
        make(engine, plan, tally);
    }
    Ok(true)
}
