//! Why primitives and joints are no circuit.
use reo_values::NoMemory;

/// Why primitives and joints are no circuit.
#[derive(Clone, Copy, Debug, PartialEq, Eq)]
pub enum NetFault {
    /// The least primitive with an end that is not in exactly one joint.
    Ends { primitive: usize },
    /// The least joint whose giver takes in or whose taker does not.
    Way { joint: usize },
    /// The least joint on a directed cycle of sides.
    Cycle { joint: usize },
    /// Out of memory.
    NoMemory,
}

impl From<NoMemory> for NetFault {
    ghost use Rattle.std.specs.Prelude.{◌≡◌};
    ghost use Rattle.reo_net_circuit.specs.declared.fault.NetFault.TheVariants.{NoMemory};

    ghost from_gives = { λ _ e. e ≡ NoMemory };

    fn from(_: NoMemory) -> NetFault {
        NetFault::NoMemory
    }
}
