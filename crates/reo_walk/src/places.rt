//! The places of some sides, in the order in which colourings are compared.
ghost use Rattle.std.specs.Prelude.{◌≡◌, ◌<◌, ℕ, IfOk, length, slice_index};
ghost use Rattle.reo_net_base.specs.Net.{net_of, all_sides};
ghost use Rattle.reo_walk.specs.Places.{places_in};

use crate::place::KeyPlace;
use reo_net_base::Primitive;
use reo_net_circuit::Circuit;
use reo_values::{List, NoMemory};
use std::alloc::Global;

/// The places of these sides: the classes of those that lead, then the classes of all, then the
/// rows of all, each in the order of the list. `NoMemory` is out of memory.
pub fn places_of<P: Primitive>(
    alloc: Global,
    circuit: &Circuit<P>,
    sides: &[usize],
) -> Result<List<KeyPlace>, NoMemory>
    requires { let net = net_of P.behaviour circuit.now in
        (m : ℕ) → m < length sides.now
        → slice_index sides.now m < length (all_sides net.primitives) }
    ensures { let net = net_of P.behaviour circuit.now in
        IfOk result (λ places. places ≡ places_in net sides.now) }
{
    let mut places = List::new(alloc);
    for side in sides {
        if circuit.leads(*side) {
            places.push(KeyPlace::Class(*side))?;
        }
    }
    for side in sides {
        places.push(KeyPlace::Class(*side))?;
    }
    for side in sides {
        places.push(KeyPlace::Row(*side))?;
    }
    Ok(places)
}
