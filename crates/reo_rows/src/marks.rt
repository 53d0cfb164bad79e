//! The marks of the values of a joint.
ghost use Rattle.std.specs.Prelude.{◌≡◌, ◌↔◌, ◌<◌, ℕ, true, IsTrue, length};
ghost use Rattle.reo_net_base.specs.declared.mark.Mark.{Mark as Said};
ghost use Rattle.reo_net_base.specs.Net.{net_of};
ghost use Rattle.reo_joint_values.specs.declared.value.JointValue.TheVariants.{Flow};
ghost use Rattle.reo_joint_values.specs.Values.{giver_mark, taker_mark};
ghost use Rattle.reo_rows.specs.Sets.{value_of, family_of};
ghost use Rattle.reo_rows.specs.Basis.{IsReadyOn};
ghost use Rattle.reo_rows.specs.Stands.{value_mark, HasMark};
ghost use Rattle.reo_side_tables.specs.Sets.{marks_has};

use crate::basis::Basis;
use crate::flags::RowFlags;
use reo_net_base::{Mark, Primitive};
use reo_net_circuit::Circuit;
use reo_side_tables::{Marks, giver_side, marks_of};

/// The places of the values of a joint: without flow, where the giver requires a reason, where the
/// taker does, where neither does, and jam; from `FLOWS` on the values with flow.
pub const GIVER_REQUIRES: usize = 0;

pub const TAKER_REQUIRES: usize = 1;

pub const NEITHER_REQUIRES: usize = 2;

pub const JAM: usize = 3;

pub const FLOWS: usize = 4;

/// The mark of a value, by its place, at the giver of its joint.
fn mark_given(code: usize) -> Mark
    ensures { result ≡ giver_mark (value_of code) }
{
    match code {
        0 => Mark::R,
        1 | 2 => Mark::G,
        3 => Mark::J,
        _ => Mark::F,
    }
}

/// The mark of a value, by its place, at the taker of its joint.
fn mark_taken(code: usize) -> Mark
    ensures { result ≡ taker_mark (value_of code) }
{
    match code {
        1 => Mark::R,
        0 | 2 => Mark::G,
        3 => Mark::J,
        _ => Mark::F,
    }
}

/// The mark of a value of a joint, by its place, as a side of the joint sees it.
pub fn mark_seen<P: Primitive>(circuit: &Circuit<P>, side: usize, joint: usize, code: usize) -> Mark
    requires { joint < length circuit.now.joints }
    ensures { result ≡ value_mark (net_of P.behaviour circuit.now) side joint (value_of code) }
{
    if giver_side(circuit, joint) == side {
        mark_given(code)
    } else {
        mark_taken(code)
    }
}

/// Whether a joint has a value with flow.
fn has_flow(alive: &RowFlags, joint: usize) -> bool
    requires { joint < length alive.now }
    ensures { IsTrue result ↔ ((n : ℕ) × (family_of alive.now joint (Flow n) ≡ true)) }
{
    for code in FLOWS..alive.width(joint) {
        if alive.is_set(joint, code) {
            return true;
        }
    }
    false
}

/// The marks that the values of a joint have, as a side of the joint sees them.
pub fn marks_left<P: Primitive>(
    basis: &Basis<'_, P>,
    alive: &RowFlags,
    side: usize,
    joint: usize,
) -> Marks
    requires ready { let net = net_of P.behaviour basis.now.circuit.now in
        IsReadyOn net basis.now alive.now }
    requires joint { joint < length basis.now.circuit.now.joints }
    ensures { let net = net_of P.behaviour basis.now.circuit.now in
        (m : Said) → (marks_has result m ≡ true) ↔ HasMark net (family_of alive.now) side joint m }
{
    let gives = giver_side(basis.circuit, joint) == side;
    let giver_requires = alive.is_set(joint, GIVER_REQUIRES);
    let taker_requires = alive.is_set(joint, TAKER_REQUIRES);
    let neither = alive.is_set(joint, NEITHER_REQUIRES);
    let flow = has_flow(alive, joint);
    let jam = alive.is_set(joint, JAM);
    if gives {
        marks_of(flow, taker_requires, neither, giver_requires, jam)
    } else {
        marks_of(flow, giver_requires, neither, taker_requires, jam)
    }
}
