//! Whether rows are those of a colouring.
ghost use Rattle.std.specs.Prelude.{◌≡◌, IfOk};
ghost use Rattle.reo_net_base.specs.Net.{net_of};
ghost use Rattle.reo_net_circuit.specs.found_ends.Ends.{AreEnds};
ghost use Rattle.reo_refute.specs.check.Judging.{IsColoured};

use crate::check::stop::LogStop;
use reo_checker::{Wrong, check_marks, item_fault};
use reo_net::fill_with;
use reo_net_base::Primitive;
use reo_net_circuit::{Circuit, Ends};
use reo_values::{List, NoMemory};
use std::alloc::Global;

/// The same rows once more.
fn copy_rows(alloc: Global, rows: &[u32]) -> Result<List<u32>, NoMemory>
    ensures { IfOk result (λ copy. copy ≡ rows.now) }
{
    match Vec::from_slice(alloc, rows) {
        Ok(list) => Ok(List::from_vec(list)),
        Err(_) => Err(NoMemory),
    }
}

/// Whether the rows, with the items that they determine, are a colouring.
pub(crate) fn check_rows<P: Primitive>(
    alloc: Global,
    circuit: &Circuit<P>,
    ends: &Ends,
    rows: &[u32],
) -> Result<(), LogStop>
    requires { AreEnds (net_of P.behaviour circuit.now) ends.now }
    ensures { IsColoured (net_of P.behaviour circuit.now) rows.now result }
{
    match check_marks(circuit, rows) {
        Err(wrong) => Err(LogStop::Colouring(wrong)),
        Ok(()) => {
            let filled = fill_with(alloc, circuit, ends, copy_rows(alloc, rows)?)?;
            match item_fault(circuit, rows, filled.items.as_slice()) {
                None => Ok(()),
                Some(joint) => Err(LogStop::Colouring(Wrong::Item { joint })),
            }
        }
    }
}
