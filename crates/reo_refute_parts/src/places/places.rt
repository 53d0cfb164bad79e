//! The places of a key, in order.
ghost use Rattle.std.specs.Prelude.{◌≡◌, ℕ, ◌<◌, IfOk, length, map};
ghost use Rattle.reo_net_base.specs.Net.{net_of, all_sides};
ghost use Rattle.reo_net_base.specs.Sides.{side_count};
ghost use Rattle.reo_net_base.specs.First.{leading_positions, class_positions, row_positions, positions};
ghost use Rattle.reo_net_laws.specs.Ends.{IsRowOf};
ghost use Rattle.reo_refute_parts.specs.places.KeyPlaces.{position_of};

use crate::places::place::{Number, SidePlace};
use reo_net_base::Primitive;
use reo_net_circuit::Circuit;
use reo_values::{List, NoMemory};
use std::alloc::Global;

/// The number that a row puts at a place of its side.
pub(crate) fn number_of<P: Primitive>(
    circuit: &Circuit<P>,
    turn: u64,
    place: SidePlace,
    row: usize,
) -> usize
    requires side { place.side < side_count (net_of P.behaviour circuit.now) }
    requires row { IsRowOf (net_of P.behaviour circuit.now) place.side row }
    ensures { result ≡ (position_of (net_of P.behaviour circuit.now) turn place).number row }
{
    match place.number {
        Number::Row => row,
        Number::Class => {
            let owner = circuit.owner(place.side);
            circuit
                .primitive(owner.primitive)
                .class(owner.side, row, turn)
        }
    }
}

/// The places of the classes of the sides that lead.
fn leading_places<P: Primitive>(
    alloc: Global,
    circuit: &Circuit<P>,
) -> Result<List<SidePlace>, NoMemory>
    ensures { let net = net_of P.behaviour circuit.now in
        IfOk result (λ places. (turn : ℕ) → map (position_of net turn) places
        ≡ leading_positions turn (all_sides net.primitives) 0) }
{
    let mut places = List::new(alloc);
    for side in 0..circuit.sides() {
        if circuit.leads(side) {
            let number = Number::Class;
            places.push(SidePlace { side, number })?;
        }
    }
    Ok(places)
}

/// The places of the classes of all sides.
fn class_places<P: Primitive>(
    alloc: Global,
    circuit: &Circuit<P>,
) -> Result<List<SidePlace>, NoMemory>
    ensures { let net = net_of P.behaviour circuit.now in
        IfOk result (λ places. (turn : ℕ) → map (position_of net turn) places
        ≡ class_positions turn (all_sides net.primitives) 0) }
{
    let mut places = List::new(alloc);
    for side in 0..circuit.sides() {
        let number = Number::Class;
        places.push(SidePlace { side, number })?;
    }
    Ok(places)
}

/// The places of the rows of all sides.
fn row_places<P: Primitive>(
    alloc: Global,
    circuit: &Circuit<P>,
) -> Result<List<SidePlace>, NoMemory>
    ensures { let net = net_of P.behaviour circuit.now in
        IfOk result (λ places. (turn : ℕ) → map (position_of net turn) places
        ≡ row_positions (all_sides net.primitives) 0) }
{
    let mut places = List::new(alloc);
    for side in 0..circuit.sides() {
        let number = Number::Row;
        places.push(SidePlace { side, number })?;
    }
    Ok(places)
}

/// The places of a key, in order: the classes of the sides that lead, the classes of all sides,
/// and the rows of all sides. `NoMemory` is out of memory.
pub fn key_places<P: Primitive>(
    alloc: Global,
    circuit: &Circuit<P>,
) -> Result<List<SidePlace>, NoMemory>
    ensures { let net = net_of P.behaviour circuit.now in
        IfOk result (λ places. (turn : ℕ) → map (position_of net turn) places
        ≡ positions net turn) }
{
    let mut places = leading_places(alloc, circuit)?;
    let mut later = class_places(alloc, circuit)?;
    later.append(row_places(alloc, circuit)?)?;
    places.append(later)?;
    Ok(places)
}
