//! Offers of numbers.
use reo_connector::Connector;
use reo_net_base::{Move, Offer};
use reo_rounds::OfferFault;
use reo_values::Value;

/// Whether an item is this number.
fn is_number(item: &Value, number: i64) -> bool {
    match item {
        Value::Int(found) => *found == number,
        _ => false,
    }
}

/// Whether these move, each the port and the number.
pub fn are_moves(moves: &[Move], want: &[(usize, i64)]) -> bool {
    if moves.len() != want.len() {
        return false;
    }
    for index in 0..moves.len() {
        let (port, number) = want[index];
        if moves[index].port != port || !is_number(&moves[index].item, number) {
            return false;
        }
    }
    true
}

/// A write of a number, or a take.
fn offer_of(number: Option<i64>) -> Offer {
    match number {
        Some(number) => Offer::Write(Value::Int(number)),
        None => Offer::Take,
    }
}

/// Whether an offer is a write of this number, or a take.
fn is_offer(offer: &Offer, number: Option<i64>) -> bool {
    match (offer, number) {
        (Offer::Write(item), Some(number)) => is_number(item, number),
        (Offer::Take, None) => true,
        _ => false,
    }
}

/// Whether an offer is taken, or declined for this cause and handed back.
pub fn is_answered(
    held: &mut Connector,
    port: usize,
    number: Option<i64>,
    cause: Option<OfferFault>,
) -> bool {
    match held.offer(port, offer_of(number)) {
        Ok(()) => cause.is_none(),
        Err(declined) => cause == Some(declined.cause) && is_offer(&declined.offer, number),
    }
}

/// Whether at each port before this one its own number is written.
pub fn are_written(held: &mut Connector, ports: u32) -> bool {
    for port in 0..ports {
        if !is_answered(held, port as usize, Some(i64::from(port)), None) {
            return false;
        }
    }
    true
}
