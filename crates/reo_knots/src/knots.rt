//! Knots, and finding them.
ghost use Rattle.std.specs.Prelude.{◌≡◌, ◌<◌, [], IfOk, length, slice_index, slice_index_or};
ghost use Rattle.reo_net_base.specs.Net.{net_of};
ghost use Rattle.reo_net_laws.specs.Knots.{AreKnots, knot_count};

use crate::groups::{group_loops, group_sides};
use crate::links::{LinkedSides, find_links};
use crate::numbers::{Numbers, number};
use reo_net_base::Primitive;
use reo_net_circuit::Circuit;
use reo_values::{List, NoMemory};
use std::alloc::Global;
use std::marker::Model;

/// The knots of a circuit, numbered from 0 in the order of their least sides.
///
/// A knot is a greatest set of sides that joints link, where no step goes from one side of a
/// primitive to its other side. Contracts see the number of each side's knot, and the sides and
/// the loop joints of each knot.
#[derive(Drop)]
pub struct Knots {
    numbers: Vec<usize>,
    sides: Vec<List<usize>>,
    loop_joints: Vec<List<usize>>,
}

impl Model for Knots {
    ghost use Rattle.std.specs.Prelude.{◌≡◌, length};
    ghost use Rattle.reo_net_laws.specs.Knots.{Knotted, knotted};

    ghost Value = { Knotted };

    ghost view = { λ k. knotted k.numbers.items k.sides.items k.loop_joints.items };

    ghost invariant = { λ k. length k.loop_joints.items ≡ length k.sides.items };
}

impl Knots {
    /// How many knots there are. This takes no memory.
    pub fn count(&self) -> usize
        ensures { result ≡ knot_count self.now }
    {
        self.sides.len()
    }

    /// The knot of a side. This takes no memory.
    pub fn knot_of(&self, side: usize) -> usize
        requires { side < length self.now.numbers }
        ensures { result ≡ slice_index self.now.numbers side }
    {
        self.numbers[side]
    }

    /// The sides of a knot, in increasing order. This takes no memory.
    pub fn sides(&self, knot: usize) -> &[usize]
        requires { knot < knot_count self.now }
        ensures { result.now ≡ slice_index_or self.now.sides knot [] }
    {
        self.sides[knot].as_slice()
    }

    /// The loop joints of a knot, in increasing order: those whose two sides joints of smaller
    /// number link. This takes no memory.
    pub fn loop_joints(&self, knot: usize) -> &[usize]
        requires { knot < knot_count self.now }
        ensures { result.now ≡ slice_index_or self.now.loop_joints knot [] }
    {
        self.loop_joints[knot].as_slice()
    }
}

/// The knots of a circuit. `NoMemory` is out of memory.
///
/// Where a joint links two sets of sides, the smaller set changes its label. So among n sides each
/// changes its label at most log n times.
pub fn find_knots<P: Primitive>(alloc: Global, circuit: &Circuit<P>) -> Result<Knots, NoMemory>
    ensures { IfOk result (AreKnots (net_of P.behaviour circuit.now)) }
{
    circuit.known();
    let LinkedSides { labels, loops } = find_links(alloc, circuit)?;
    let Numbers { numbers, count } = number(alloc, labels.as_slice())?;
    let sides = group_sides(alloc, numbers.as_slice(), count)?;
    let loop_joints = group_loops(alloc, circuit, numbers.as_slice(), loops.as_slice(), count)?;
    Ok(Knots {
        numbers,
        sides,
        loop_joints,
    })
}
