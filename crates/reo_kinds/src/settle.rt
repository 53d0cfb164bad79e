//! What a round leaves of what a kind keeps.
ghost use Rattle.std.specs.Prelude.{◌≡◌, ◌-◌, ◌<◌, cond, nat_lt, None};
ghost use Rattle.reo_net_base.specs.declared.form.Form.TheVariants.{Double};
ghost use Rattle.reo_net_base.specs.Forms.{mark_by};
ghost use Rattle.reo_net_base.specs.Marks.{is_flow};
ghost use Rattle.reo_kinds.specs.Kinds.{given_away, put_in, quota_table, ready, shift_in, replaced, settled_kind};

use crate::kind::Kind;
use crate::offer;
use reo_buffers::Buffer;
use reo_net_base::Chosen;
use reo_values::Value;

/// Gives the front away, where this is asked and there is one.
fn give_away(buffer: &mut Buffer, gives: bool)
    ensures { buffer.new ≡ given_away gives buffer.old }
{
    if gives && !buffer.is_empty() {
        drop(buffer.take());
    }
}

/// Puts an item in at the back. A full buffer takes none in.
fn put_in(buffer: &mut Buffer, item: Option<Value>)
    ensures { buffer.new ≡ put_in item buffer.old }
{
    if let Some(item) = item {
        if !buffer.is_full() {
            buffer.put(item);
        }
    }
}

/// Puts an item in at the back. A full buffer loses its front for it.
fn shift_in(buffer: &mut Buffer, item: Option<Value>)
    ensures { buffer.new ≡ shift_in item buffer.old }
{
    if let Some(item) = item {
        buffer.known();
        let full = buffer.is_full();
        give_away(buffer, full);
        buffer.put(item);
    }
}

/// Holds an item in place of what was held.
fn replace(held: &mut Option<Value>, item: Option<Value>)
    ensures { held.new ≡ replaced item held.old }
{
    if item.is_some() {
        *held = item;
    }
}

/// Takes one off a quota, where its ends flow and any is left.
fn lower(left: &mut u32, flows: bool)
    ensures { left.new ≡ cond flows (left.old - 1) left.old }
{
    if flows {
        *left = left.saturating_sub(1);
    }
}

/// Whether a side with one end flows by a row, by whether it can flow.
fn flows(can_flow: bool, row: usize) -> bool
    ensures { result ≡ is_flow (mark_by (ready can_flow) row 0) }
{
    can_flow && row == 0
}

/// Whether the ends of a quota flow by a row, by whether any is left.
fn quota_flows(some_left: bool, row: usize) -> bool
    ensures { result ≡ is_flow (mark_by (Double (quota_table some_left)) row 0) }
{
    some_left && row == 0
}

/// The item, if its end flows.
fn where_flow(flows: bool, item: Option<Value>) -> Option<Value>
    ensures { result ≡ cond flows item None }
{
    if flows { item } else { None }
}

/// Goes on by the rows of its sides, where this item comes in at a mouth that flows. No row is
/// looked up in a table.
pub fn settle(kind: &mut Kind, rows: Chosen, taken: Option<Value>)
    ensures { kind.new ≡ settled_kind kind.old rows taken }
{
    match kind {
        Kind::Writer(port) => {
            if flows(port.offer.is_some(), rows.first) {
                offer::withdraw(port);
            }
        }
        Kind::Taker(port) => {
            if flows(port.pending, rows.first) {
                port.pending = false;
            }
        }
        Kind::Store(buffer) => {
            let comes = flows(!buffer.is_full(), rows.first);
            let goes = flows(buffer.front().is_some(), rows.second);
            give_away(buffer, goes);
            put_in(buffer, where_flow(comes, taken));
        }
        Kind::Shift(buffer) => {
            let comes = flows(true, rows.first);
            let goes = flows(buffer.front().is_some(), rows.second);
            give_away(buffer, goes);
            shift_in(buffer, where_flow(comes, taken));
        }
        Kind::Variable(held) => {
            let comes = flows(true, rows.first);
            replace(held, where_flow(comes, taken));
        }
        Kind::Quota(left) => {
            let flow = quota_flows(0 < *left, rows.first);
            lower(left, flow);
        }
        _ => {}
    }
}
