//! A law of the ports of open circuits.
ghost use Rattle.reo_listing.specs.gates.OpenPorts.{OpenPortsAreGates};

/// At the ports of a set of sides of an open circuit stand gates with all rows.
pub fn open_ports_are_gates()
    ensures { OpenPortsAreGates }
{}
