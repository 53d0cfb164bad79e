//! The open circuit of a circuit.
ghost use Rattle.std.specs.Prelude.{◌≡◌, IfOk};
ghost use Rattle.reo_open.specs.Opened.{HasNoFilter, open_wiring};

use crate::kinds::all_opened;
use crate::opens::Open;
use reo_kinds::Kind;
use reo_net_base::Joint;
use reo_net_circuit::{Circuit, NetFault};
use reo_values::{List, NoMemory};
use std::alloc::Global;

/// A copy of some joints.
fn copied(alloc: Global, joints: &[Joint]) -> Result<List<Joint>, NoMemory>
    ensures { IfOk result (λ made. made ≡ joints.now) }
{
    let mut made = List::new(alloc);
    for joint in joints {
        made.push(*joint)?;
    }
    Ok(made)
}

/// Out of memory, which is the one fault of parts that make a circuit.
fn only_memory(fault: NetFault) -> NoMemory
    requires { fault ≡ NetFault.NoMemory }
{
    let _ = fault;
    NoMemory
}

/// The open circuit of a circuit without filters. It has the sides and joints of that circuit, a
/// gate with all rows in place of each port, a sync in place of each map, and unit in place of
/// each item that is kept. `NoMemory` is out of memory.
pub fn open_circuit(alloc: Global, circuit: &Circuit<Kind>) -> Result<Circuit<Open>, NoMemory>
    requires { HasNoFilter circuit.now.primitives }
    ensures { IfOk result (λ made. made ≡ open_wiring circuit.now) }
{
    circuit.known();
    circuit.known_ports();
    let primitives = all_opened(alloc, circuit.primitives())?;
    let joints = copied(alloc, circuit.joints())?;
    match Circuit::new(alloc, primitives, circuit.ports(), joints) {
        Ok(made) => Ok(made),
        Err(fault) => Err(only_memory(fault)),
    }
}
