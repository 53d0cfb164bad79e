//! What is found of the first knot of a circuit.
ghost use Rattle.std.specs.Prelude.{◌≡◌, ◌<◌};
ghost use Rattle.reo_net_base.specs.Net.{net_of};
ghost use Rattle.reo_net_laws.specs.Knots.{AreKnots, knot_count};
ghost use Rattle.reo_reach.specs.Supplied.{AreShort, IsSupply};

use crate::arranged::{Want, is_arranged, is_narrowed};
use crate::beginnings::{Left, is_begun};
use crate::circuits::{Shape, made};
use crate::looks::{is_one_knot, is_supplied};
use crate::searches::{is_wide, searched};
use crate::sets::Table;
use reo_kinds::Kind;
use reo_knots::{Knots, find_knots};
use reo_net_base::Primitive;
use reo_net_circuit::Circuit;
use reo_reach::{Supply, reach};
use reo_search::Wanted;
use reo_steps::Steps;
use std::alloc::Global;
use std::marker::Brand;
use std::process::Abort;
use std::sync::ledger::{Blank, Ledger};

/// What is found of the first knot of a circuit.
#[derive(Clone, Copy)]
pub enum Fact<'a> {
    /// At each of so many joints so many items can stand, all of them 1, and none of them is wide.
    Supplied(usize, usize),
    /// It is the only knot, of these sides, and these joints close its loops.
    Only(&'static [usize], &'static [usize]),
    /// Within a budget its first assignment is found, or it is spent where the budget is below the
    /// weight; then the weight, and the rows of the assignment.
    Within(u64, u64, &'a [u32]),
    /// It is wide, and not searched within a budget.
    Wide(u64),
    /// Its first assignment in a round, with these values at the joints.
    Arranged(u64, Table, Want<'a>),
    /// What is left of these values when they are narrowed: `None` where at some joint nothing is.
    Narrowed(Table, Option<Table>),
    /// A search that begins with these values, or with all, and what is there then, when it is
    /// narrowed, when it begins anew with all, and when it is narrowed again.
    Begun(Option<Table>, &'a [Left; 4]),
}

/// The round that a fact is of: the first, where it names none.
fn turn_of(fact: Fact<'_>) -> u64 {
    match fact {
        Fact::Arranged(turn, _, _) => turn,
        _ => 1,
    }
}

fn is_so<P: Primitive, L: Ledger>(
    alloc: Global,
    circuit: &Circuit<P>,
    knots: &Knots,
    supply: &Supply,
    fact: Fact<'_>,
    steps: &mut Steps<L>,
) -> bool
    requires knots { AreKnots (net_of P.behaviour circuit.now) knots.now }
    requires some { 0 < knot_count knots.now }
    requires supply { IsSupply (net_of P.behaviour circuit.now) supply.now }
    requires short { AreShort supply.now }
{
    let wanted = Wanted {
        circuit,
        knots,
        supply,
        knot: 0,
        turn: turn_of(fact),
    };
    match fact {
        Fact::Supplied(joints, ones) => is_supplied(supply, joints, ones),
        Fact::Only(sides, loops) => is_one_knot(knots, sides, loops),
        Fact::Within(budget, weighs, rows) => {
            searched(alloc, &wanted, weighs, budget, rows, steps)
        }
        Fact::Wide(budget) => is_wide(alloc, &wanted, budget, steps),
        Fact::Arranged(_, values, want) => is_arranged(alloc, &wanted, values, want, steps),
        Fact::Narrowed(values, want) => { is_narrowed(alloc, circuit, knots, supply, values, want) }
        Fact::Begun(values, want) => is_begun(alloc, circuit, knots, supply, values, want),
    }
}

fn is_found<P: Primitive, L: Ledger>(
    alloc: Global,
    circuit: &Circuit<P>,
    fact: Fact<'_>,
    steps: &mut Steps<L>,
) -> bool {
    let Ok(knots) = find_knots(alloc, circuit) else {
        return false;
    };
    match reach(alloc, circuit) {
        Ok(supply) => { 0 < knots.count() && is_so(alloc, circuit, &knots, &supply, fact, steps) }
        Err(_) => false,
    }
}

fn is_counted<L: Ledger>(
    alloc: Global,
    circuit: &Circuit<Kind>,
    fact: Fact<'_>,
    blank: Blank,
) -> bool
    requires name { blank.name ≡ L.name }
    requires parts { blank.parts ≡ L.parts }
    requires some_part { 0 < L.parts }
{
    let mut steps = Steps::<L>::new(blank);
    is_found(alloc, circuit, fact, &mut steps)
}

fn assert_all(rt: &impl Abort, alloc: Global, circuit: &Circuit<Kind>, facts: &[Fact<'_>]) {
    for row in 0..facts.len() {
        let found = is_counted::<Brand>(alloc, circuit, facts[row], Blank::new(1));
        assert!(rt; found, "row {row}");
    }
}

/// Asserts these facts of a circuit.
pub fn are(rt: &impl Abort, alloc: Global, shape: Shape, facts: &[Fact<'_>]) {
    match made(rt, alloc, shape) {
        Ok(circuit) => assert_all(rt, alloc, &circuit, facts),
        Err(_) => panic!(rt; "no circuit"),
    }
}
