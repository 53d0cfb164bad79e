//! The circuit of a program.
ghost use Rattle.reo_flat.specs.flatten_laws.Circuits.{CircuitsAreMade, CircuitsAreSmall};

use crate::flatten_laws::joints::{ends_are_joined, joints_go_right};
use crate::flatten_laws::nodes::{nodes_are_distinct, nodes_are_known, nodes_are_served};

/// Where no rule is broken and no name has the byte `@`, what a circuit is made from has no fault
/// but a cycle: ports with one side and one end, joints between ends that there are, each end in
/// exactly one joint, each joint the right way.
pub fn circuits_are_made()
    ensures { CircuitsAreMade }
{
    nodes_are_served();
    ends_are_joined();
    joints_go_right();
}

/// Where no rule is broken and no name has the byte `@`, there are at most 16,384 joints and
/// 4,096 primitives.
pub fn circuits_are_small()
    ensures { CircuitsAreSmall }
{
    nodes_are_known();
    nodes_are_distinct();
    nodes_are_served();
}
