//! Sets of values at the joints of a circuit: all of them, but one alone at loop joints.
ghost use Rattle.std.specs.Prelude.{◌≡◌, ◌<◌, ◌^◌, length};
ghost use Rattle.reo_net_base.specs.Net.{net_of};
ghost use Rattle.reo_net_base.specs.Colouring.{IsColouring};
ghost use Rattle.reo_kinds.specs.Kinds.{behaviour_of};
ghost use Rattle.reo_reach.specs.Supplied.{AreShort, IsSupply};

use crate::values::value_at;
use reo_joint_values::JointValue::{self, Flow, GG, GR, Jam, RG};
use reo_kinds::Kind;
use reo_knots::Knots;
use reo_net_base::Colouring;
use reo_net_circuit::Circuit;
use reo_propagate::Sets;
use reo_reach::Supply;
use reo_values::{List, NoMemory};
use std::alloc::Global;

/// All values of a joint where so many items can stand.
fn all_values(alloc: Global, count: usize) -> Result<List<JointValue>, NoMemory>
    requires { count < 2 ^ 32 }
{
    let mut values = List::new(alloc);
    for value in &[RG, GR, GG, Jam] {
        values.push(*value)?;
    }
    for number in 0..count {
        values.push(Flow(number as u32))?;
    }
    Ok(values)
}

/// One value alone.
fn one_value(alloc: Global, value: JointValue) -> Result<List<JointValue>, NoMemory> {
    let mut values = List::new(alloc);
    values.push(value)?;
    Ok(values)
}

/// Whether a joint is a loop joint.
fn is_loop(knots: &Knots, joint: usize) -> bool {
    for knot in 0..knots.count() {
        if knots.loop_joints(knot).contains(&joint) {
            return true;
        }
    }
    false
}

/// All values of a joint, or the one of a colouring at a loop joint.
fn set_at(
    alloc: Global,
    circuit: &Circuit<Kind>,
    knots: &Knots,
    supply: &Supply,
    plain: &Colouring,
    joint: usize,
) -> Result<List<JointValue>, NoMemory>
    requires supply { IsSupply (net_of behaviour_of circuit.now) supply.now }
    requires short { AreShort supply.now }
    requires plain { IsColouring (net_of behaviour_of circuit.now) plain.now.rows plain.now.items }
    requires joint { joint < length circuit.now.joints }
{
    let items = supply.items(joint);
    if is_loop(knots, joint) {
        one_value(alloc, value_at(circuit, items, plain, joint))
    } else {
        all_values(alloc, items.len())
    }
}

/// All values at each joint, but at each loop joint the one of a colouring alone.
pub fn sets_of(
    alloc: Global,
    circuit: &Circuit<Kind>,
    knots: &Knots,
    supply: &Supply,
    plain: &Colouring,
) -> Result<Sets, NoMemory>
    requires supply { IsSupply (net_of behaviour_of circuit.now) supply.now }
    requires short { AreShort supply.now }
    requires plain { IsColouring (net_of behaviour_of circuit.now) plain.now.rows plain.now.items }
{
    let mut values = List::new(alloc);
    for joint in 0..circuit.joint_count() {
        values.push(set_at(alloc, circuit, knots, supply, plain, joint)?)?;
    }
    Ok(Sets { values })
}
