//! How the tests put circuits together, and what they tell of them.
use crate::checks::{MEMORY, is};
use crate::firsts::has_first;
use crate::knots::has_knots;
use crate::pieces::read_kinds;
use crate::puts::is_loosened;
use crate::rounds::{Round, all_go_on};
use crate::row_lists::{Rows, just_listed_suit, just_pairs_suit};
use crate::shapes::Shape;
use reo_kinds::Kind;
use reo_net_base::{End, Joint};
use reo_net_circuit::{Circuit, NetFault, are_parts};
use reo_values::List;
use std::alloc::Global;
use std::process::Abort;

/// What a case tells of a circuit.
#[derive(Clone, Copy)]
pub enum Look {
    /// It is none, for this fault.
    Fault(NetFault),
    /// In the round of this number its first colouring is this.
    First(u64, &'static str),
    /// Of each knot the sides and the loop joints.
    Knots(&'static [(&'static [usize], &'static [usize])]),
    /// Rounds one after the other.
    Rounds(&'static [Round]),
    /// The first colouring before and after a lossy channel is put in the place of another.
    Loosened(&'static str, &'static str),
    /// How many row lists one channel has, and those that suit the joints.
    Lists(u32, &'static [Rows]),
    /// The row lists of each of two channels that suit the joints.
    Pairs(&'static [Rows], &'static [Rows]),
}

/// What is told, the pieces in words, their shape, and what it tells of the circuit.
pub type Case = (&'static str, &'static str, Shape, Look);

/// The joints of these numbers: a giver's primitive and end, and then a taker's.
fn joined(rt: &impl Abort, alloc: Global, joints: &[[usize; 4]]) -> List<Joint> {
    let mut list = List::new(alloc);
    for [giver, source, taker, sink] in joints {
        let giver = End {
            primitive: *giver,
            end: *source,
        };
        let taker = End {
            primitive: *taker,
            end: *sink,
        };
        list.push(Joint { giver, taker }).expect(rt, MEMORY);
    }
    list
}

/// The circuit of these primitives, the first of which are ports, or its fault.
pub fn made(
    rt: &impl Abort,
    alloc: Global,
    kinds: List<Kind>,
    ports: usize,
    joints: &[[usize; 4]],
) -> Result<Circuit<Kind>, NetFault> {
    let joints = joined(rt, alloc, joints);
    if kinds.len() >= 1000 || joints.len() >= 1000 {
        rt.panic("too many parts")
    }
    if !are_parts(kinds.as_slice(), ports, joints.as_slice()) {
        rt.panic("no parts of a circuit")
    }
    Circuit::new(alloc, kinds, ports, joints)
}

fn looks_right(rt: &impl Abort, alloc: Global, circuit: &mut Circuit<Kind>, look: Look) -> bool {
    match look {
        Look::Fault(_) => false,
        Look::First(turn, want) => has_first(rt, alloc, circuit, turn, want),
        Look::Knots(want) => has_knots(rt, alloc, circuit, want),
        Look::Rounds(rounds) => all_go_on(rt, alloc, circuit, rounds),
        Look::Loosened(before, after) => is_loosened(rt, alloc, circuit, before, after),
        Look::Lists(count, list) => just_listed_suit(circuit, count, list),
        Look::Pairs(first, second) => just_pairs_suit(circuit, first, second),
    }
}

/// Whether all is as a case tells.
pub fn is_right(rt: &impl Abort, alloc: Global, words: &str, shape: Shape, look: Look) -> bool {
    let kinds = read_kinds(rt, alloc, words);
    match made(rt, alloc, kinds, shape.ports, shape.joints) {
        Ok(mut circuit) => {
            let right = looks_right(rt, alloc, &mut circuit, look);
            drop(circuit);
            right
        }
        Err(fault) => matches!(look, Look::Fault(want) if fault == want),
    }
}

/// The test stops at a case that does not tell what is so.
pub fn all_are_right(rt: &impl Abort, alloc: Global, cases: &[Case]) {
    for (told, words, shape, look) in cases {
        is(rt, is_right(rt, alloc, words, *shape, *look), told);
    }
}
