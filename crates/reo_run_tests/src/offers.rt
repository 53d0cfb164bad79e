//! Offers at the ports of engines.
use reo_engine::{Engine, OfferFault};
use reo_kinds::Kind;
use reo_net_base::Offer;
use reo_values::Value;

/// Whether an item is this number.
pub fn is_item(item: &Value, number: i64) -> bool {
    match item {
        Value::Int(found) => *found == number,
        _ => false,
    }
}

/// A write of a number, or a take.
fn offer_of(number: Option<i64>) -> Offer {
    match number {
        Some(number) => Offer::Write(Value::Int(number)),
        None => Offer::Take,
    }
}

/// Whether an offer is a write of this number, or a take.
fn is_offer(offer: &Offer, number: Option<i64>) -> bool {
    match (offer, number) {
        (Offer::Write(item), Some(number)) => is_item(item, number),
        (Offer::Take, None) => true,
        _ => false,
    }
}

/// Whether an offer is taken, or declined for this cause and handed back.
pub fn is_answered(
    engine: &mut Engine<Kind>,
    port: usize,
    number: Option<i64>,
    cause: Option<OfferFault>,
) -> bool {
    match engine.offer(port, offer_of(number)) {
        Ok(()) => cause.is_none(),
        Err(declined) => cause == Some(declined.cause) && is_offer(&declined.offer, number),
    }
}

/// Whether an offer is pending at a port.
pub fn is_pending(engine: &Engine<Kind>, port: usize) -> bool {
    port < engine.circuit().ports() && engine.circuit().is_pending(port)
}
