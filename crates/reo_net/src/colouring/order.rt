//! The order of rows.
ghost use Rattle.std.specs.Prelude.{◌≡◌, ◌<◌, length, slice_index, slice_index_or};
ghost use Rattle.std.specs.Ordering.{nat_cmp};
ghost use Rattle.reo_net_base.specs.Sides.{AreRowsOf, side_count};
ghost use Rattle.reo_net_base.specs.Net.{net_of, all_sides, Side};
ghost use Rattle.reo_net_base.specs.First.{leading_positions, class_positions, order_by, order_of};

use reo_net_base::Primitive;
use reo_net_circuit::Circuit;
use std::cmp::Ordering;

/// How the classes of a side's rows compare.
fn class_order<P: Primitive>(
    circuit: &Circuit<P>,
    turn: u64,
    a: &[u32],
    b: &[u32],
    side: usize,
) -> Ordering
    requires first { AreRowsOf (net_of P.behaviour circuit.now) a.now }
    requires second { AreRowsOf (net_of P.behaviour circuit.now) b.now }
    requires side { side < side_count (net_of P.behaviour circuit.now) }
    ensures { let sides = all_sides (net_of P.behaviour circuit.now).primitives in
        (d : Side) → let s = slice_index_or sides side d in
        result ≡ nat_cmp (s.of.class s.number (slice_index a.now side) turn)
        (s.of.class s.number (slice_index b.now side) turn) }
{
    let first = circuit.class(turn, a, side);
    let second = circuit.class(turn, b, side);
    first.cmp(&second)
}

/// Which of two lists of rows comes first by the classes of the sides that lead.
fn order_of_leading<P: Primitive>(circuit: &Circuit<P>, turn: u64, a: &[u32], b: &[u32]) -> Ordering
    requires first { AreRowsOf (net_of P.behaviour circuit.now) a.now }
    requires second { AreRowsOf (net_of P.behaviour circuit.now) b.now }
    ensures { let sides = all_sides (net_of P.behaviour circuit.now).primitives in
        result ≡ order_by (leading_positions turn sides 0) a.now b.now }
{
    for side in 0..circuit.sides() {
        if circuit.leads(side) {
            let order = class_order(circuit, turn, a, b, side);
            if order.is_ne() {
                return order;
            }
        }
    }
    Ordering::Equal
}

/// Which of two lists of rows comes first by the classes of all sides.
fn order_of_classes<P: Primitive>(circuit: &Circuit<P>, turn: u64, a: &[u32], b: &[u32]) -> Ordering
    requires first { AreRowsOf (net_of P.behaviour circuit.now) a.now }
    requires second { AreRowsOf (net_of P.behaviour circuit.now) b.now }
    ensures { let sides = all_sides (net_of P.behaviour circuit.now).primitives in
        result ≡ order_by (class_positions turn sides 0) a.now b.now }
{
    for side in 0..circuit.sides() {
        let order = class_order(circuit, turn, a, b, side);
        if order.is_ne() {
            return order;
        }
    }
    Ordering::Equal
}

/// Which of two lists of rows comes first in the round of this number: by the classes of the sides
/// that lead, where these are equal by the classes of all sides, and where these are equal too by
/// the rows of all sides. This takes no memory.
pub fn compare<P: Primitive>(circuit: &Circuit<P>, turn: u64, a: &[u32], b: &[u32]) -> Ordering
    requires first { AreRowsOf (net_of P.behaviour circuit.now) a.now }
    requires second { AreRowsOf (net_of P.behaviour circuit.now) b.now }
    ensures { result ≡ order_of (net_of P.behaviour circuit.now) turn a.now b.now }
{
    let leading = order_of_leading(circuit, turn, a, b);
    if leading.is_ne() {
        return leading;
    }
    let classes = order_of_classes(circuit, turn, a, b);
    if classes.is_ne() {
        return classes;
    }
    a.cmp(b)
}
