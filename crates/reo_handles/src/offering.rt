//! Offers at ports.
ghost use Rattle.reo_net_base.specs.declared.port.Offer.TheVariants.{Take as ToTake};
ghost use Rattle.reo_handles.specs.Offers.{Fits, Offers, Withdraws, Writes};
ghost use Rattle.reo_handles.specs.Statuses.{AtOpen};

use crate::handle::{Handle, put, taken};
use crate::session::Session;
use crate::status::CallStatus;
use reo_connector::ItemFault;
use reo_net_base::Offer;
use reo_rounds::OfferFault;
use std::alloc::Global;

impl Session {
    /// Makes an offer pending at a port: to take, or to write an item of the port's type.
    #[tactic(auto, unfolding(crate::specs::Offers::Offers))]
    fn offer(&mut self, port: usize, offer: Offer) -> CallStatus
        requires fits { Fits self.old.connector port offer }
        ensures { Offers port offer self.old self.new result }
    {
        self.connector.known();
        match self.connector.offer(port, offer) {
            Ok(()) => CallStatus::Done,
            Err(declined) => match declined.cause {
                OfferFault::NoPort => CallStatus::NoPort,
                OfferFault::WrongWay => CallStatus::WrongWay,
                OfferFault::Pending => CallStatus::Pending,
                OfferFault::ItemOutside => unreachable!(),
            },
        }
    }

    /// Offers to write the item of a text.
    #[tactic(auto, unfolding(crate::specs::Offers::Offers, crate::specs::Offers::Writes))]
    fn write(&mut self, alloc: Global, port: usize, text: &[u8]) -> CallStatus
        ensures { Writes port text.now self.old self.new result }
    {
        match self.connector.item(alloc, port, text) {
            Ok(item) => self.offer(port, Offer::Write(item)),
            Err(ItemFault::NoItem) => CallStatus::NoItem,
            Err(ItemFault::NoMemory) => CallStatus::NoMemory,
        }
    }

    /// Takes an offer back.
    fn withdraw(&mut self, port: usize) -> CallStatus
        ensures { Withdraws port self.old self.new result }
    {
        if self.connector.withdraw(port) {
            CallStatus::Done
        } else {
            CallStatus::NotPending
        }
    }
}

/// Offers to write at a port the item of its type that has this text. `NoItem`: there is none, or
/// no such port; `WrongWay`, `Pending`: the port does not take the offer. Nothing changes then.
pub fn write_open(alloc: Global, handle: &mut Handle, port: usize, text: &[u8]) -> CallStatus
    ensures { AtOpen (Writes port text.now)
        handle.old.place.session handle.new.place.session result }
{
    let Some(mut session) = taken(alloc, handle) else {
        return CallStatus::Closed;
    };
    let status = session.write(alloc, port, text);
    put(handle, session);
    status
}

/// Offers to take an item at a port. `NoPort`, `WrongWay`, `Pending`: it does not take the offer,
/// and nothing changes.
pub fn take_open(alloc: Global, handle: &mut Handle, port: usize) -> CallStatus
    ensures { AtOpen (Offers port ToTake)
        handle.old.place.session handle.new.place.session result }
{
    let Some(mut session) = taken(alloc, handle) else {
        return CallStatus::Closed;
    };
    let status = session.offer(port, Offer::Take);
    put(handle, session);
    status
}

/// Takes the offer at a port back. `NotPending`: there is none.
pub fn withdraw_open(alloc: Global, handle: &mut Handle, port: usize) -> CallStatus
    ensures { AtOpen (Withdraws port)
        handle.old.place.session handle.new.place.session result }
{
    let Some(mut session) = taken(alloc, handle) else {
        return CallStatus::Closed;
    };
    let status = session.withdraw(port);
    put(handle, session);
    status
}
