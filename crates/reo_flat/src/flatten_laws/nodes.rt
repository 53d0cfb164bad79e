//! The nodes of a program.
ghost use Rattle.reo_flat.specs.flatten_laws.Nodes.{NodesAreKnown, NodesAreDistinct, NodesAreServed};

/// Where no name is unknown and each use has an argument for each parameter, what is placed is at
/// nodes that there are.
pub fn nodes_are_known()
    ensures { NodesAreKnown }
{}

/// Where no name stands twice and none has the byte `@`, no two nodes have one flat name.
pub fn nodes_are_distinct()
    ensures { NodesAreDistinct }
{}

/// Where no rule is broken, each node has an incoming and an outgoing end, and at most 8,192 of
/// each.
pub fn nodes_are_served()
    ensures { NodesAreServed }
{}
