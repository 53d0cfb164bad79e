//! The item that a row gives, put at its joint.
ghost use Rattle.std.specs.Prelude.{◌≡◌, ◌<◌, ℕ, true, false, List as Listed, None, Some, IfOk, OnOk, length, option_copied, set, slice_index_or};
ghost use Rattle.reo_values.specs.declared.value.Value.{Value as Item};
ghost use Rattle.reo_net_base.specs.declared.mark.Mark.TheVariants.{F};
ghost use Rattle.reo_net_base.specs.Colouring.{given_at, taken_at};
ghost use Rattle.reo_net_base.specs.Ends.{IsGiver, IsTaker};
ghost use Rattle.reo_net_base.specs.Net.{net_of, mark_at};
ghost use Rattle.reo_net_base.specs.Sides.{AreRowsOf};
ghost use Rattle.reo_net_circuit.specs.found_ends.Ends.{AreEnds};
ghost use Rattle.reo_joint_values.specs.Standing.{giver_of};
ghost use Rattle.reo_flows.specs.stepping.Flowing.{GiverFlows};
ghost use Rattle.reo_round.specs.Feeds.{AreFeeds};

use crate::copies::{plain_copy, put_plain};
use crate::feeds::{BY_ROW, BY_STATE, Feeds};
use reo_net_base::{End, Primitive};
use reo_net_circuit::{Circuit, Ends};
use reo_values::{List, NoMemory, Value};
use std::alloc::Global;

/// The item that comes in at an end that takes in, if there is one.
fn taken_at<'a, P: Primitive>(
    circuit: &Circuit<P>,
    ends: &Ends,
    items: &'a [Option<Value>],
    end: End,
) -> Option<&'a Value>
    requires ends { AreEnds (net_of P.behaviour circuit.now) ends.now }
    requires items { length items.now ≡ length circuit.now.joints }
    requires end { IsTaker (net_of P.behaviour circuit.now) end }
    ensures { option_copied result ≡ taken_at circuit.now.joints items.entry.now end }
{
    circuit.known();
    items[ends.joint_at(end)].as_ref()
}

/// The item that the row of an end that flows gives there, by the items at the joints that feed it.
fn given_at<P: Primitive>(
    alloc: Global,
    circuit: &Circuit<P>,
    ends: &Ends,
    rows: &[u32],
    items: &[Option<Value>],
    giver: End,
) -> Result<Option<Value>, NoMemory>
    requires ends { AreEnds (net_of P.behaviour circuit.now) ends.now }
    requires rows { AreRowsOf (net_of P.behaviour circuit.now) rows.now }
    requires items { length items.now ≡ length circuit.now.joints }
    requires giver { IsGiver (net_of P.behaviour circuit.now) giver }
    requires flows { mark_at (net_of P.behaviour circuit.now) rows.now giver ≡ F }
    ensures { let net = net_of P.behaviour circuit.now in
        IfOk result (λ found. found ≡ given_at net rows.now items.now giver) }
{
    circuit.known();
    let row = circuit.row_at(rows, giver);
    let primitive = circuit.primitive(giver.primitive);
    let side = primitive.side_of(giver.end);
    match primitive.from(side, row, giver.end) {
        None => {
            let item = primitive.gives(alloc, side, row, giver.end, None)?;
            Ok(Some(item))
        }
        Some(from) => {
            let source = End {
                primitive: giver.primitive,
                end: from,
            };
            match taken_at(circuit, ends, items, source) {
                None => Ok(None),
                Some(taken) => {
                    let item = primitive.gives(alloc, side, row, giver.end, Some(taken))?;
                    Ok(Some(item))
                }
            }
        }
    }
}

/// An equal item to one that is taken, where the primitive gives what it takes and the item takes
/// no memory.
#[inline(always)]
fn carried<P: Primitive>(primitive: &P, taken: Option<&Value>) -> Option<Value>
    ensures { (item : Item) → result ≡ Some item
        → ((P.lasting primitive.now).carries ≡ true) × (option_copied taken.entry ≡ Some item) }
{
    if !primitive.carries() {
        return None;
    }
    plain_copy(taken?)
}

/// The item that the row of an end that flows gives there, if it is one that stands already, in the
/// giver or at the joint that feeds it, and takes no memory.
fn plain_at<P: Primitive>(
    circuit: &Circuit<P>,
    ends: &Ends,
    rows: &[u32],
    items: &[Option<Value>],
    giver: End,
) -> Option<Value>
    requires ends { AreEnds (net_of P.behaviour circuit.now) ends.now }
    requires rows { AreRowsOf (net_of P.behaviour circuit.now) rows.now }
    requires items { length items.now ≡ length circuit.now.joints }
    requires giver { IsGiver (net_of P.behaviour circuit.now) giver }
    requires flows { mark_at (net_of P.behaviour circuit.now) rows.now giver ≡ F }
    ensures { let net = net_of P.behaviour circuit.now in (item : Item)
        → result ≡ Some item → given_at net rows.now items.now giver ≡ Some item }
{
    circuit.known();
    let row = circuit.row_at(rows, giver);
    let primitive = circuit.primitive(giver.primitive);
    let side = primitive.side_of(giver.end);
    match primitive.from(side, row, giver.end) {
        None => None,
        Some(from) => {
            let source = End {
                primitive: giver.primitive,
                end: from,
            };
            carried(primitive, taken_at(circuit, ends, items, source))
        }
    }
}

/// Puts the item that the row of the giver of a joint gives there, whatever it is.
#[inline(never)]
fn put_made<P: Primitive>(
    alloc: Global,
    circuit: &Circuit<P>,
    ends: &Ends,
    rows: &[u32],
    joint: usize,
    items: &mut List<Option<Value>>,
) -> Result<(), NoMemory>
    requires ends { AreEnds (net_of P.behaviour circuit.now) ends.now }
    requires rows { AreRowsOf (net_of P.behaviour circuit.now) rows.now }
    requires items { length items.old ≡ length circuit.now.joints }
    requires joint { joint < length circuit.now.joints }
    requires flows { GiverFlows (net_of P.behaviour circuit.now) rows.now joint }
    ensures { let net = net_of P.behaviour circuit.now in OnOk result
        (items.new ≡ set items.old joint (given_at net rows.now items.old (giver_of net joint))) }
{
    circuit.known();
    let giver = circuit.joint(joint).giver;
    let item = match plain_at(circuit, ends, rows, items.as_slice(), giver) {
        Some(item) => Some(item),
        None => given_at(alloc, circuit, ends, rows, items.as_slice(), giver)?,
    };
    *items.at_mut(joint) = item;
    Ok(())
}

/// Puts the item at a joint at another as well, if nothing is shared for it. The answer is whether
/// it does; where it does not, all stay.
#[inline(always)]
fn put_carried(items: &mut List<Option<Value>>, feed: usize, joint: usize) -> bool
    requires feed { feed < length items.old }
    requires joint { joint < length items.old }
    ensures put { result ≡ true → (item : Item) × (slice_index_or items.old feed None ≡ Some item)
        × (items.new ≡ set items.old joint (Some item)) }
    ensures stays { result ≡ false → items.new ≡ items.old }
{
    let found = match items.at(feed) {
        Some(item) => plain_copy(item),
        None => None,
    };
    match found {
        Some(item) => *items.at_mut(joint) = Some(item),
        None => return false,
    }
    true
}

/// Puts the item that a row of the giver of a joint gives there, whichever it flows by, if none
/// stands there, no row has to be looked at for it, and nothing is shared for it. The answer is
/// whether it did; where it did not, all stay.
#[inline(always)]
fn put_fed<P: Primitive>(
    circuit: &Circuit<P>,
    feeds: &Feeds,
    joint: usize,
    items: &mut List<Option<Value>>,
) -> bool
    requires feeds { AreFeeds (net_of P.behaviour circuit.now) feeds.now }
    requires items { length items.old ≡ length circuit.now.joints }
    requires joint { joint < length circuit.now.joints }
    ensures put { let net = net_of P.behaviour circuit.now in (rows : Listed ℕ)
        → AreRowsOf net rows → GiverFlows net rows joint → result ≡ true
        → items.new ≡ set items.old joint (given_at net rows items.old (giver_of net joint)) }
    ensures stays { result ≡ false → items.new ≡ items.old }
{
    circuit.known();
    if items.at(joint).is_some() {
        return false;
    }
    let primitive = circuit.primitive(circuit.joint(joint).giver.primitive);
    match feeds.of(joint) {
        BY_STATE => match primitive.front() {
            Some(front) => put_plain(items.at_mut(joint), front),
            None => false,
        },
        BY_ROW => false,
        feed => primitive.carries() && put_carried(items, feed as usize, joint),
    }
}

/// Puts the item that the row of the giver of a joint gives there.
#[inline(always)]
pub(crate) fn put_given<P: Primitive>(
    alloc: Global,
    circuit: &Circuit<P>,
    ends: &Ends,
    feeds: &Feeds,
    rows: &[u32],
    joint: usize,
    items: &mut List<Option<Value>>,
) -> Result<(), NoMemory>
    requires ends { AreEnds (net_of P.behaviour circuit.now) ends.now }
    requires feeds { AreFeeds (net_of P.behaviour circuit.now) feeds.now }
    requires rows { AreRowsOf (net_of P.behaviour circuit.now) rows.now }
    requires items { length items.old ≡ length circuit.now.joints }
    requires joint { joint < length circuit.now.joints }
    requires flows { GiverFlows (net_of P.behaviour circuit.now) rows.now joint }
    ensures { let net = net_of P.behaviour circuit.now in OnOk result
        (items.new ≡ set items.old joint (given_at net rows.now items.old (giver_of net joint))) }
{
    if put_fed(circuit, feeds, joint, items) {
        return Ok(());
    }
    put_made(alloc, circuit, ends, rows, joint, items)
}
