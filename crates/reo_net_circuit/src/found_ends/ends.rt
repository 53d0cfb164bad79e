//! The joint at each end.
ghost use Rattle.std.specs.Prelude.{◌≡◌, IfOk};
ghost use Rattle.reo_net_base.specs.Net.{net_of};
ghost use Rattle.reo_net_circuit.specs.found_ends.Ends.{AreEnds, HasEnd, joint_at};

use crate::Circuit;
use crate::found_ends::noted::{no_joints, note_all};
use reo_net_base::{End, Primitive};
use reo_values::{List, NoMemory};
use std::alloc::Global;
use std::marker::Model;

/// The number of the joint at each end of a circuit.
///
/// Contracts see a list for each primitive, with a number for each of its ends. It stays right for
/// each circuit of the same shape.
#[derive(Drop)]
pub struct Ends {
    joints: List<List<usize>>,
}

impl Model for Ends {
    ghost use Rattle.std.specs.Prelude.{ℕ, List};

    ghost Value = { List (List ℕ) };

    ghost view = { λ e. e.joints };
}

impl Ends {
    /// The joint at an end. This takes no memory.
    pub fn joint_at(&self, end: End) -> usize
        requires { HasEnd self.now end }
        ensures { result ≡ joint_at self.now end }
    {
        *self.joints.at(end.primitive).at(end.end)
    }
}

/// The joints at the ends of a circuit, in steps as many as it has ends and joints. `NoMemory` is
/// out of memory.
pub fn ends_of<P: Primitive>(alloc: Global, circuit: &Circuit<P>) -> Result<Ends, NoMemory>
    ensures { IfOk result (AreEnds (net_of P.behaviour circuit.now)) }
{
    circuit.known();
    let mut table = no_joints(alloc, circuit)?;
    note_all(&mut table, circuit);
    Ok(Ends {
        joints: List::from_vec(table),
    })
}
