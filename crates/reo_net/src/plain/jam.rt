//! The colouring that jams everywhere, from which the search starts.
ghost use Rattle.std.specs.Prelude.{◌≡◌, IfOk};
ghost use Rattle.reo_net_base.specs.Net.{net_of};
ghost use Rattle.reo_net_base.specs.Colouring.{IsColouring};
ghost use Rattle.reo_net_laws.specs.JamRows.{jam_rows, no_items};

use reo_net_base::{Colouring, Primitive};
use reo_net_circuit::Circuit;
use reo_net_laws::jam_is_colouring;
use reo_values::{List, NoMemory, Value};
use std::alloc::Global;

/// The last row of each side.
fn last_rows<P: Primitive>(alloc: Global, circuit: &Circuit<P>) -> Result<List<u32>, NoMemory>
    ensures { IfOk result (λ rows. rows ≡ jam_rows (net_of P.behaviour circuit.now)) }
{
    let mut rows = List::new(alloc);
    for side in 0..circuit.sides() {
        rows.push((circuit.rows(side) - 1) as u32)?;
    }
    Ok(rows)
}

/// No item at any joint.
fn no_items<P: Primitive>(
    alloc: Global,
    circuit: &Circuit<P>,
) -> Result<List<Option<Value>>, NoMemory>
    ensures { IfOk result (λ items. items ≡ no_items (net_of P.behaviour circuit.now)) }
{
    let mut items = List::new(alloc);
    for index in 0..circuit.joint_count() {
        let _ = index;
        items.push(None)?;
    }
    Ok(items)
}

/// The colouring that jams everywhere.
pub(crate) fn jammed<P: Primitive>(
    alloc: Global,
    circuit: &Circuit<P>,
) -> Result<Colouring, NoMemory>
    ensures { let net = net_of P.behaviour circuit.now in
        IfOk result (λ jam. IsColouring net jam.rows jam.items) }
{
    circuit.known();
    jam_is_colouring();
    let rows = last_rows(alloc, circuit)?;
    let items = no_items(alloc, circuit)?;
    Ok(Colouring { rows, items })
}
