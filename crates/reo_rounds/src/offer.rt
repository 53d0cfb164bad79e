//! Offers that are declined.
use reo_net_base::Offer;

/// Why an offer was declined: the first of these that holds.
#[derive(Clone, Copy, Debug, PartialEq, Eq)]
pub enum OfferFault {
    /// The number names no port.
    NoPort,
    /// A write at an `out` port, or a take at an `in` port.
    WrongWay,
    /// An offer is pending at the port.
    Pending,
    /// The item is not in the port's type.
    ItemOutside,
}

/// An offer that was declined, handed back, and why.
#[derive(Drop)]
pub struct Declined {
    pub cause: OfferFault,
    pub offer: Offer,
}
