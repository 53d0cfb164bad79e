//! A side of a part, with its form and the places of its ends.
ghost use Rattle.std.specs.Prelude.{◌≡◌, ◌<◌, true};
ghost use Rattle.reo_net_base.specs.Net.{net_of};
ghost use Rattle.reo_net_base.specs.Sides.{side_count};
ghost use Rattle.reo_mark_search.specs.Searched.{IsSearched, in_part};
ghost use Rattle.reo_mark_search.specs.Spots.{IsSeat};

use crate::searched::Searched;
use crate::spots::places_at;
use reo_net_base::{Form, Primitive};

/// The form of a side, and the places of its ends.
#[derive(Drop)]
pub(crate) struct Seat<'a> {
    pub form: Form,
    pub places: &'a [usize],
}

/// The seat of a side of a part.
pub(crate) fn seat_at<'a, P: Primitive>(searched: &Searched<'a, P>, side: usize) -> Seat<'a>
    requires searched { IsSearched (net_of P.behaviour searched.now.circuit.now) searched.now }
    requires side { side < side_count (net_of P.behaviour searched.now.circuit.now) }
    requires here { in_part searched.now side ≡ true }
    ensures { IsSeat (net_of P.behaviour searched.now.circuit.now) searched.now.spots.now side
        result.form result.places.now }
{
    let owner = searched.circuit.owner(side);
    let form = *searched.forms.at(side);
    Seat {
        form,
        places: places_at(searched.circuit, searched.spots, owner, form),
    }
}
