//! Making logs.
ghost use Rattle.std.specs.Prelude.{◌≡◌, IfOk};
ghost use Rattle.reo_net_base.specs.Net.{net_of};
ghost use Rattle.reo_refute_base.specs.Wide.{IsWide};
ghost use Rattle.reo_refute_base.specs.faults.Faults.{IsProof};
ghost use Rattle.reo_refute.specs.check.Judging.{IsFirstRows};

use crate::footing::Footing;
use crate::proving::parts::put_parts;
use reo_net_base::Primitive;
use reo_net_circuit::{Circuit, ends_of};
use reo_refute_base::items_are_listed;
use reo_refute_live::tables_of;
use reo_refute_parts::{item_lists, key_places};
use reo_values::{Bytes, NoMemory};
use std::alloc::Global;

/// A log that shows that no colouring of a circuit in its present state stands before the rows of
/// the first colouring, in the round of this number. `NoMemory` is out of memory.
pub fn prove<P: Primitive>(
    alloc: Global,
    circuit: &Circuit<P>,
    turn: u64,
    rows: &[u32],
) -> Result<Bytes, NoMemory>
    requires first { IsFirstRows (net_of P.behaviour circuit.now) turn rows.now }
    requires narrow { IsWide (net_of P.behaviour circuit.now) → ⊥ }
    ensures { let net = net_of P.behaviour circuit.now in
        IfOk result (λ log. IsProof net turn rows.now log) }
{
    circuit.known();
    items_are_listed();
    let mut out = Bytes::new(alloc);
    let ends = ends_of(alloc, circuit)?;
    match item_lists(alloc, circuit, &ends)? {
        None => Ok(out),
        Some(lists) => {
            let tables = tables_of(alloc, circuit)?;
            let places = key_places(alloc, circuit)?;
            let round = Footing {
                alloc,
                circuit,
                turn,
                given: rows,
                places: places.as_slice(),
                lists: lists.as_slice(),
                tables: &tables,
            };
            put_parts(&round, &mut out)?;
            Ok(out)
        }
    }
}
