//! The nodes that joints are at.
ghost use Rattle.reo_flat.specs.flatten_laws.Homes.{HomesFit, HomesAreNodes, HomesRise, FirstNodeOnCycle, EndsAreAtHome};

/// There are as many homes as joints.
pub fn homes_fit()
    ensures { HomesFit }
{}

/// Each home is the number of a node.
pub fn homes_are_nodes()
    ensures { HomesAreNodes }
{}

/// The homes rise with the numbers of the joints.
pub fn homes_rise()
    ensures { HomesRise }
{}

/// The node that a refusal for a directed cycle names is the first node that lies on one.
pub fn first_node_on_cycle()
    ensures { FirstNodeOnCycle }
{
    homes_fit();
    homes_rise();
}

/// Both ends of each joint are at its home: an end of a port or a channel at the node where it is
/// placed, that of a merger or a replicator at the node that has it.
pub fn ends_are_at_home()
    ensures { EndsAreAtHome }
{}
