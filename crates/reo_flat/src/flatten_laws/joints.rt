//! The joints of a program.
ghost use Rattle.reo_flat.specs.flatten_laws.Joints.{EndsAreJoined, JointsGoRight};

use crate::flatten_laws::nodes::{nodes_are_distinct, nodes_are_known};

/// Where names are right and each node has its ends, each end of each primitive is in exactly one
/// joint.
pub fn ends_are_joined()
    ensures { EndsAreJoined }
{
    nodes_are_known();
    nodes_are_distinct();
}

/// Where each node has its ends, joints are between ends that there are, from one that gives to
/// one that takes in.
pub fn joints_go_right()
    ensures { JointsGoRight }
{}
