//! The ports of a program.
ghost use Rattle.reo_flat.specs.flatten_laws.Ports.{PortsDiffer, PortsAreFirst};

/// Where no name stands twice, no two ports have one name.
pub fn ports_differ()
    ensures { PortsDiffer }
{}

/// The first primitives are the ports, each a writer of its type or a taker, and the first nodes
/// are theirs.
pub fn ports_are_first()
    ensures { PortsAreFirst }
{}
