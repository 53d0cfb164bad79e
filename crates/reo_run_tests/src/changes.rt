//! Plans that are changed.
use reo_engine::Plan;
use reo_net_base::{Colouring, Move};
use reo_values::{List, Value};

/// A change of a plan.
#[derive(Clone, Copy)]
pub enum Change {
    /// A side has this row.
    Row(usize, u32),
    /// A joint has this number, or no item.
    Item(usize, Option<i64>),
    /// The last move is left out.
    Less,
    /// A move is at this port.
    Port(usize, usize),
    /// A move has this number.
    Moved(usize, i64),
    /// Whether no end flows.
    Idle(bool),
    /// So many sides jam.
    Jammed(usize),
}

/// The number as an item.
fn item_of(number: Option<i64>) -> Option<Value> {
    match number {
        Some(number) => Some(Value::Int(number)),
        None => None,
    }
}

/// Gives a side this row.
fn set_row(colouring: &mut Colouring, side: usize, row: u32) {
    if side < colouring.rows.len() {
        *colouring.rows.at_mut(side) = row;
    }
}

/// Gives a joint this number.
fn set_item(colouring: &mut Colouring, joint: usize, number: Option<i64>) {
    if joint < colouring.items.len() {
        *colouring.items.at_mut(joint) = item_of(number);
    }
}

/// Gives a move this port.
fn set_port(moves: &mut List<Move>, place: usize, port: usize) {
    if place < moves.len() {
        moves.at_mut(place).port = port;
    }
}

/// Gives a move this number.
fn set_moved(moves: &mut List<Move>, place: usize, number: i64) {
    if place < moves.len() {
        moves.at_mut(place).item = Value::Int(number);
    }
}

/// Makes one change.
fn apply(plan: &mut Plan, change: Change) {
    match change {
        Change::Row(side, row) => set_row(&mut plan.colouring, side, row),
        Change::Item(joint, number) => set_item(&mut plan.colouring, joint, number),
        Change::Less => {
            let _last = plan.moves.pop();
        }
        Change::Port(place, port) => set_port(&mut plan.moves, place, port),
        Change::Moved(place, number) => set_moved(&mut plan.moves, place, number),
        Change::Idle(idle) => plan.idle = idle,
        Change::Jammed(count) => plan.jammed = count,
    }
}

/// Changes a plan, one change after the other.
pub fn change_all(plan: &mut Plan, changes: &[Change]) {
    for step in changes {
        apply(plan, *step);
    }
}
