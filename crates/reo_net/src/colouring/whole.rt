//! Whether rows and items are a colouring.
ghost use Rattle.std.specs.Prelude.{◌≡◌, ◌<◌, ◌↔◌, IsTrue, length, false, true};
ghost use Rattle.reo_net_base.specs.Sides.{AreRowsOf};
ghost use Rattle.reo_net_base.specs.Wired.{IsEnd};
ghost use Rattle.reo_net_base.specs.Net.{net_of, all_sides};
ghost use Rattle.reo_net_base.specs.Colouring.{JointMatches, IsColouring};
ghost use Rattle.reo_net.specs.colouring.Filled.{AllMatch};

use crate::colouring::fitting::all_fit;
use reo_net_base::{Joint, Primitive, marks_match};
use reo_net_circuit::Circuit;
use reo_values::Value;

/// Whether a joint matches.
fn matches_at<P: Primitive>(circuit: &Circuit<P>, rows: &[u32], joint: Joint) -> bool
    requires rows { AreRowsOf (net_of P.behaviour circuit.now) rows.now }
    requires giver { IsEnd (net_of P.behaviour circuit.now).primitives joint.giver }
    requires taker { IsEnd (net_of P.behaviour circuit.now).primitives joint.taker }
    ensures { IsTrue result ↔ JointMatches (net_of P.behaviour circuit.now) rows.now joint }
{
    let giver = circuit.mark_at(rows, joint.giver);
    let taker = circuit.mark_at(rows, joint.taker);
    marks_match(giver, taker)
}

/// Whether each joint matches.
fn all_match<P: Primitive>(circuit: &Circuit<P>, rows: &[u32]) -> bool
    requires { AreRowsOf (net_of P.behaviour circuit.now) rows.now }
    ensures { IsTrue result ↔ AllMatch (net_of P.behaviour circuit.now) rows.now }
{
    circuit.known();
    for index in 0..circuit.joint_count() {
        if !matches_at(circuit, rows, circuit.joint(index)) {
            return false;
        }
    }
    true
}

/// Whether rows and items are a colouring of a circuit in its present state. The rows and items may
/// be any: `false` also where there are too few or too many, or where a row is past the table of
/// its side. This takes no memory.
pub fn is_colouring<P: Primitive>(
    circuit: &Circuit<P>,
    rows: &[u32],
    items: &[Option<Value>],
) -> bool
    ensures { IsTrue result ↔ IsColouring (net_of P.behaviour circuit.now) rows.now items.now }
{
    if !circuit.are_rows(rows) || items.len() != circuit.joint_count() {
        return false;
    }
    all_match(circuit, rows) && all_fit(circuit, rows, items)
}
