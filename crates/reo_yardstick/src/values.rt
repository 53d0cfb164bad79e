//! The values that a colouring has at joints.
ghost use Rattle.std.specs.Prelude.{◌<◌, ◌^◌, length};
ghost use Rattle.reo_net_base.specs.Net.{net_of};
ghost use Rattle.reo_net_base.specs.Sides.{AreRowsOf};
ghost use Rattle.reo_net_base.specs.Colouring.{IsColouring};
ghost use Rattle.reo_kinds.specs.Kinds.{behaviour_of};

use reo_joint_values::JointValue::{self, Flow, GG, GR, Jam, RG};
use reo_kinds::Kind;
use reo_net_base::{Colouring, Mark};
use reo_net_circuit::Circuit;
use reo_values::{List, Value, same_item};

/// The number of an item: past the last where it is none of these.
fn number_of(items: &List<Value>, item: &Value) -> u32
    requires { length items.now < 2 ^ 32 }
{
    for number in 0..items.len() {
        if same_item(items.at(number), item) {
            return number as u32;
        }
    }
    items.len() as u32
}

/// The value of a joint without flow, by the marks of its giver and its taker.
fn still_of(giver: Mark, taker: Mark) -> JointValue {
    match (giver, taker) {
        (Mark::J, _) => Jam,
        (Mark::R, _) => RG,
        (_, Mark::R) => GR,
        _ => GG,
    }
}

/// The value of a joint without flow, by rows.
fn still_at(circuit: &Circuit<Kind>, rows: &[u32], joint: usize) -> JointValue
    requires rows { AreRowsOf (net_of behaviour_of circuit.now) rows.now }
    requires joint { joint < length circuit.now.joints }
{
    circuit.known();
    let ends = circuit.joint(joint);
    let giver = circuit.mark_at(rows, ends.giver);
    let taker = circuit.mark_at(rows, ends.taker);
    still_of(giver, taker)
}

/// The value of a colouring at a joint where these items can stand.
pub fn value_at(
    circuit: &Circuit<Kind>,
    items: &List<Value>,
    plain: &Colouring,
    joint: usize,
) -> JointValue
    requires few { length items.now < 2 ^ 32 }
    requires plain { IsColouring (net_of behaviour_of circuit.now) plain.now.rows plain.now.items }
    requires joint { joint < length circuit.now.joints }
{
    match plain.items.at(joint) {
        Some(item) => Flow(number_of(items, item)),
        None => still_at(circuit, plain.rows.as_slice(), joint),
    }
}
