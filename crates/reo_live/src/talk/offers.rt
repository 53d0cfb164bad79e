//! Offers that come and go by events.
ghost use Rattle.std.specs.Prelude.{◌≡◌, cond};
ghost use Rattle.reo_rounds.specs.Rules.{rules_of};
ghost use Rattle.reo_live.specs.base.Events.{is_pending, withdrawn_at};
ghost use Rattle.reo_live.specs.talk.Offers.{cause_of, IsOffered};

use crate::base::LineRefusal;
use reo_engine::{Engine, OfferFault};
use reo_net_base::{Offer, Ported};

/// The cause of a line whose offer is declined.
fn cause_of(fault: OfferFault) -> LineRefusal
    ensures { result ≡ cause_of fault }
{
    match fault {
        OfferFault::NoPort => LineRefusal::Port,
        OfferFault::WrongWay => LineRefusal::Way,
        OfferFault::Pending => LineRefusal::Pending,
        OfferFault::ItemOutside => LineRefusal::Outside,
    }
}

/// Makes an offer, and answers why it was declined, if it was. This takes no memory.
pub(crate) fn make_offer<P: Ported>(
    engine: &mut Engine<P>,
    port: usize,
    offer: Offer,
) -> Option<LineRefusal>
    ensures offered { let r = rules_of P.behaviour P.settled P.port_state P.placed P.withdrawn in
        IsOffered r engine.old.circuit port offer engine.new.circuit result }
    ensures rounds { engine.new.rounds ≡ engine.old.rounds }
{
    match engine.offer(port, offer) {
        Ok(()) => None,
        Err(declined) => Some(cause_of(declined.cause)),
    }
}

/// Takes an offer back, and answers whether there was one. This takes no memory.
pub(crate) fn take_back<P: Ported>(engine: &mut Engine<P>, port: usize) -> bool
    ensures pending { let r = rules_of P.behaviour P.settled P.port_state P.placed P.withdrawn in
        result ≡ is_pending r engine.old.circuit port }
    ensures circuit { let r = rules_of P.behaviour P.settled P.port_state P.placed P.withdrawn in
        let old = engine.old.circuit in
        engine.new.circuit ≡ cond result (withdrawn_at r old port) old }
    ensures rounds { engine.new.rounds ≡ engine.old.rounds }
{
    engine.withdraw(port)
}

/// Whether an offer is pending at the port of a number.
pub(crate) fn is_pending<P: Ported>(engine: &Engine<P>, port: usize) -> bool
    ensures { let r = rules_of P.behaviour P.settled P.port_state P.placed P.withdrawn in
        result ≡ is_pending r engine.now.circuit port }
{
    let circuit = engine.circuit();
    port < circuit.ports() && circuit.is_pending(port)
}
