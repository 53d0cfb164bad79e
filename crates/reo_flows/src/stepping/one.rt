//! The rows of the sides of a primitive.
ghost use Rattle.std.specs.Prelude.{◌≡◌, ◌+◌, ◌<◌, ◌==◌, cond, length, slice_index};
ghost use Rattle.reo_net_base.specs.Net.{net_of};
ghost use Rattle.reo_net_base.specs.Sides.{side_count};
ghost use Rattle.reo_net_base.specs.Step.{chosen_for};

use reo_net_base::{Chosen, Primitive};
use reo_net_circuit::{Circuit, chosen};

/// The rows of the one or two sides of the primitive at a place.
#[inline(always)]
pub(crate) fn chosen_for<P: Primitive>(circuit: &Circuit<P>, rows: &[u32], index: usize) -> Chosen
    requires index { index < length circuit.now.primitives }
    requires rows { length rows.now ≡ side_count (net_of P.behaviour circuit.now) }
    ensures { result ≡ chosen_for (net_of P.behaviour circuit.now) rows.now index }
{
    circuit.known();
    let first = circuit.first_of(index);
    chosen(circuit.primitive(index), first, rows)
}
