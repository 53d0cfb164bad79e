//! Whether rows are those of a colouring.
ghost use Rattle.std.specs.Prelude.{◌≡◌, IfOk, MatchOption, List as Items, Option};
ghost use Rattle.reo_values.specs.declared.value.Value.{Value as Item};
ghost use Rattle.reo_net_base.specs.Net.{net_of};
ghost use Rattle.reo_net_base.specs.Colouring.{RowsFit, IsColouring};
ghost use Rattle.reo_net_circuit.specs.found_ends.Ends.{AreEnds};

use crate::colouring::fitting::all_fit;
use crate::colouring::items::items_of;
use reo_net_base::Primitive;
use reo_net_circuit::{Circuit, Ends, ends_of};
use reo_values::{List, NoMemory, Value};
use std::alloc::Global;

/// The items with which rows are a colouring, if there are any, by the joints of the circuit's
/// ends.
fn colour_with<P: Primitive>(
    alloc: Global,
    circuit: &Circuit<P>,
    ends: &Ends,
    rows: &[u32],
) -> Result<Option<List<Option<Value>>>, NoMemory>
    requires ends { AreEnds (net_of P.behaviour circuit.now) ends.now }
    requires rows { RowsFit (net_of P.behaviour circuit.now) rows.now }
    ensures { let net = net_of P.behaviour circuit.now in IfOk result (λ found. MatchOption found
        ((items : Items (Option Item)) → IsColouring net rows.now items → ⊥)
        (λ items. IsColouring net rows.now items)) }
{
    let items = items_of(alloc, circuit, ends, rows)?;
    if all_fit(circuit, rows, items.as_slice()) {
        Ok(Some(items))
    } else {
        Ok(None)
    }
}

/// The items with which rows that fit together are a colouring: `None` exactly where there are
/// none, since some row does not let in what another gives. `NoMemory` is out of memory.
pub fn colour<P: Primitive>(
    alloc: Global,
    circuit: &Circuit<P>,
    rows: &[u32],
) -> Result<Option<List<Option<Value>>>, NoMemory>
    requires { RowsFit (net_of P.behaviour circuit.now) rows.now }
    ensures { let net = net_of P.behaviour circuit.now in IfOk result (λ found. MatchOption found
        ((items : Items (Option Item)) → IsColouring net rows.now items → ⊥)
        (λ items. IsColouring net rows.now items)) }
{
    let ends = ends_of(alloc, circuit)?;
    colour_with(alloc, circuit, &ends, rows)
}
