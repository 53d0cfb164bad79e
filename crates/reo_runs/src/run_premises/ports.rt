//! The ports of flat circuits are what runs ask for.
ghost use Rattle.reo_runs.specs.run_premises.FlatPorts.{FlatPortsFit};

use reo_flat::{ports_differ, types_are_valid};

/// In a program as a text says it that breaks no rule, the first primitives are the ports, each of
/// its way and its type, with no offer pending; no other primitive is a port; no two ports have one
/// name, and none has a type with too many symbols.
pub fn flat_ports_fit()
    ensures { FlatPortsFit }
{
    ports_differ();
    types_are_valid();
}
