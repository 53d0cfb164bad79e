//! What is made least.
ghost use Rattle.std.specs.Prelude.{◌≡◌, ◌<◌, length};
ghost use Rattle.reo_net_base.specs.Net.{net_of, all_sides};
ghost use Rattle.reo_net_laws.specs.Ends.{IsRowOf};
ghost use Rattle.reo_net_laws.specs.Keys.{class_of};
ghost use Rattle.reo_walk.specs.Places.{side_of_place, number_of, suits};

use reo_net_base::{Mark, Primitive};
use reo_net_circuit::Circuit;

/// What is made least: the class of a side, or the number of its row.
#[derive(Clone, Copy, Debug, PartialEq, Eq)]
pub enum KeyPlace {
    Class(usize),
    Row(usize),
}

/// The side of a place.
pub(crate) fn side_of_place(place: KeyPlace) -> usize
    ensures { result ≡ side_of_place place }
{
    match place {
        KeyPlace::Class(side) => side,
        KeyPlace::Row(side) => side,
    }
}

/// Whether one mark is as the other at a place: a class tells flow, no flow and jam apart, a row
/// all four marks.
pub(crate) fn suits(place: KeyPlace, mark: Mark, other: Mark) -> bool
    ensures { result ≡ suits place mark other }
{
    match place {
        KeyPlace::Class(_) => match mark {
            Mark::F => matches!(other, Mark::F),
            Mark::G => matches!(other, Mark::G | Mark::R),
            Mark::R => matches!(other, Mark::G | Mark::R),
            Mark::J => matches!(other, Mark::J),
        },
        KeyPlace::Row(_) => match mark {
            Mark::F => matches!(other, Mark::F),
            Mark::G => matches!(other, Mark::G),
            Mark::R => matches!(other, Mark::R),
            Mark::J => matches!(other, Mark::J),
        },
    }
}

/// The number that a row puts at a place: its class in the round of this number, or itself.
pub(crate) fn number_of<P: Primitive>(
    circuit: &Circuit<P>,
    place: KeyPlace,
    row: usize,
    turn: u64,
) -> usize
    requires side { let net = net_of P.behaviour circuit.now in
        side_of_place place < length (all_sides net.primitives) }
    requires row { IsRowOf (net_of P.behaviour circuit.now) (side_of_place place) row }
    ensures { result ≡ number_of (net_of P.behaviour circuit.now) turn place row }
{
    match place {
        KeyPlace::Class(side) => {
            let owner = circuit.owner(side);
            circuit
                .primitive(owner.primitive)
                .class(owner.side, row, turn)
        }
        KeyPlace::Row(_) => row,
    }
}
