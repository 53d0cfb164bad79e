//! Offers at ports.
ghost use Rattle.std.specs.Prelude.{◌≡◌, ◌↔◌, IsTrue, MatchOption, map};
ghost use Rattle.reo_rounds.specs.Offering.{IsOfferFault, IsTakenAt};
ghost use Rattle.reo_net_base.specs.PortState.{way_of, CanPlace, IsAccepted};
ghost use Rattle.reo_rounds.specs.Offering.{IsPortFault};

use reo_net_base::{Offer, Ported, Way};
use reo_net_circuit::Circuit;
use reo_rounds::OfferFault;

/// The way of the port of an offer.
fn way_of(offer: &Offer) -> Way
    ensures { result ≡ way_of offer.now }
{
    match offer {
        Offer::Write(_) => Way::In,
        Offer::Take => Way::Out,
    }
}

/// Whether the item of an offer is one that a port accepts.
fn is_accepted<P: Ported>(port: &P, offer: &Offer) -> bool
    ensures { IsTrue result ↔ IsAccepted (P.port_state port.now) offer.now }
{
    match offer {
        Offer::Write(item) => port.fits(item),
        Offer::Take => true,
    }
}

/// Why a port declines an offer, if it does.
fn port_fault<P: Ported>(port: &P, offer: &Offer) -> Option<OfferFault>
    ensures { MatchOption result (CanPlace (P.port_state port.now) offer.now)
        (IsPortFault (P.port_state port.now) offer.now) }
{
    if port.way() != Some(way_of(offer)) {
        return Some(OfferFault::WrongWay);
    }
    if port.pending() {
        return Some(OfferFault::Pending);
    }
    if is_accepted(port, offer) {
        None
    } else {
        Some(OfferFault::ItemOutside)
    }
}

/// Why an offer at the port of a number is declined, if it is.
pub(crate) fn offer_fault<P: Ported>(
    circuit: &Circuit<P>,
    port: usize,
    offer: &Offer,
) -> Option<OfferFault>
    ensures { let states = map P.port_state circuit.now.primitives in
        MatchOption result (IsTakenAt states circuit.now.ports port offer.now)
        (IsOfferFault states circuit.now.ports port offer.now) }
{
    if circuit.ports() <= port {
        return Some(OfferFault::NoPort);
    }
    circuit.known_ports();
    port_fault(circuit.primitive(port), offer)
}
