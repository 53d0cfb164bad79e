//! Offers at ports.
ghost use Rattle.std.specs.Prelude.{◌≡◌, ◌<◌, ◌↔◌, IsTrue, IsSome, map, length, slice_index_or};
ghost use Rattle.reo_net_base.specs.PortState.{CanPlace, port_state_at};
ghost use Rattle.reo_net_base.specs.Step.{change_at};
ghost use Rattle.reo_net_circuit.specs.Offers.{OffersAfterRound, ShapeAfterRound};

use crate::circuit::Circuit;
use reo_net_base::{Offer, Ported, Way};
use std::mem::replace;

/// Whether an offer may be placed here.
pub fn can_place<P: Ported>(primitive: &P, offer: &Offer) -> bool
    ensures { IsTrue result ↔ CanPlace (P.port_state primitive.now) offer.now }
{
    match (primitive.way(), offer) {
        (Some(Way::In), Offer::Write(item)) => !primitive.pending() && primitive.fits(item),
        (Some(Way::Out), Offer::Take) => !primitive.pending(),
        _ => false,
    }
}

/// Makes this the pending offer of one of the primitives.
pub fn place_at<P: Ported>(primitives: &mut [P], index: usize, offer: Offer)
    requires index { index < length primitives.old }
    requires offer { CanPlace (port_state_at (map P.port_state primitives.old) index) offer }
    ensures { primitives.new ≡ change_at (λ p. P.placed p offer) primitives.old index }
{
    let primitive = &mut primitives[index];
    primitive.place(offer);
}

/// Takes the pending offer of one of the primitives back.
pub fn withdraw_at<P: Ported>(primitives: &mut [P], index: usize)
    requires index { index < length primitives.old }
    requires pending { IsSome (port_state_at (map P.port_state primitives.old) index).pending }
    ensures { primitives.new ≡ change_at P.withdrawn primitives.old index }
{
    let primitive = &mut primitives[index];
    primitive.withdraw();
}

/// Puts a primitive in place of one of the primitives, which is handed back.
pub fn put_at<P: Ported>(primitives: &mut [P], index: usize, primitive: P) -> P
    requires { index < length primitives.old }
    ensures list { primitives.new ≡ change_at (λ _. primitive) primitives.old index }
    ensures before { result ≡ slice_index_or primitives.old index result }
{
    replace(&mut primitives[index], primitive)
}

impl<P: Ported> Circuit<P> {
    /// What holds of offers in a round: where a port flows its offer is gone, and else it is as it
    /// was. What is no port has none. The shape of the circuit stays, and so do the ways of its
    /// ports and what they accept.
    pub fn known_offers(&self)
        ensures offers { OffersAfterRound P.behaviour P.settled P.port_state self.now }
        ensures shape { ShapeAfterRound P.behaviour P.settled P.port_state self.now }
    {
        self.known();
        self.known_ports();
    }

    /// Whether an offer may be placed at a port: it has the port's way, nothing is pending there,
    /// and a written item fits.
    pub fn can_place(&self, port: usize, offer: &Offer) -> bool
        requires { port < self.now.ports }
        ensures { IsTrue result
            ↔ CanPlace (port_state_at (map P.port_state self.now.primitives) port) offer.now }
    {
        self.known_ports();
        can_place(self.primitive(port), offer)
    }

    /// Whether an offer is pending at a port.
    pub fn is_pending(&self, port: usize) -> bool
        requires { port < self.now.ports }
        ensures { IsTrue result
            ↔ IsSome (port_state_at (map P.port_state self.now.primitives) port).pending }
    {
        self.known_ports();
        self.primitive(port).pending()
    }
}
