//! Gates that are given other rows.
ghost use Rattle.std.specs.Prelude.{◌≡◌, Bool};
ghost use Rattle.reo_open.specs.declared.gate.GateRows.{GateRows as AllowedRows};
ghost use Rattle.reo_listing.specs.laws.Gated.{allowed_for, gate_of, IsGate, put_at};

use reo_net_base::{Mark, Primitive};
use reo_net_circuit::Circuit;
use reo_open::{Gate, GateRows, Open};

/// The rows of a gate that says this alone.
pub(crate) fn allowed_for(mark: Mark) -> GateRows
    ensures { result ≡ allowed_for mark }
{
    match mark {
        Mark::F => GateRows::Flow,
        Mark::G => GateRows::Given,
        Mark::R => GateRows::Required,
        Mark::J => GateRows::All,
    }
}

/// Gives a gate these rows. All else stays. This takes no memory.
pub(crate) fn allow(circuit: &mut Circuit<Open>, port: usize, allowed: GateRows)
    requires { (takes : Bool) × (before : AllowedRows) × IsGate circuit.old port takes before }
    ensures { (takes : Bool) (before : AllowedRows) → IsGate circuit.old port takes before
        → circuit.new ≡ put_at circuit.old port (gate_of takes allowed) }
{
    let takes = circuit.primitive(port).takes_in(0);
    drop(circuit.put(port, Open::Border(Gate { takes, allowed })));
}
