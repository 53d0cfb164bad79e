//! The forms of the sides of the kinds.
ghost use Rattle.std.specs.Prelude.{◌≡◌, ◌==◌, cond};
ghost use Rattle.reo_kinds.specs.Kinds.{ready, form_of, ready_table, quota_table};

use crate::kind::Kind;
use reo_net_base::{Form, Table};

/// The table of a side with one end, by whether it can flow.
fn ready_table(can_flow: bool) -> Table
    ensures { result ≡ ready_table can_flow }
{
    if can_flow {
        Table::Ready
    } else {
        Table::Resting
    }
}

/// The table of a quota, by whether any is left.
fn quota_table(some_left: bool) -> Table
    ensures { result ≡ quota_table some_left }
{
    if some_left {
        Table::Together
    } else {
        Table::Spent
    }
}

/// The mouth, side 0, or the tail, by whether they can flow.
fn mouth_or_tail(free: bool, holding: bool, side: usize) -> Form
    ensures { result ≡ cond (side == 0) (ready free) (ready holding) }
{
    let can_flow = if side == 0 { free } else { holding };
    Form::Single(ready_table(can_flow))
}

/// The form of a side of a kind, in its present state.
pub fn form_of(kind: &Kind, side: usize) -> Form
    ensures { result ≡ form_of kind.now side }
{
    match kind {
        Kind::Writer(port) => Form::Single(ready_table(port.offer.is_some())),
        Kind::Taker(port) => Form::Single(ready_table(port.pending)),
        Kind::Sync | Kind::SyncDrain | Kind::Map(_) => Form::Double(Table::Together),
        Kind::Lossy => Form::Double(Table::Lossy),
        Kind::AsyncDrain => Form::Double(Table::OneOfTwo),
        Kind::Filter(_) => Form::Double(Table::Filter),
        Kind::Quota(left) => Form::Double(quota_table(0 < *left)),
        Kind::Store(buffer) => mouth_or_tail(!buffer.is_full(), buffer.front().is_some(), side),
        Kind::Shift(buffer) => mouth_or_tail(true, buffer.front().is_some(), side),
        Kind::Variable(held) => mouth_or_tail(true, held.is_some(), side),
        Kind::Merger(branches) => Form::Merging(*branches),
        Kind::Replicator(branches) => Form::Replicating(*branches),
    }
}
