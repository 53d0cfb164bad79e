//! The items that rows determine.
ghost use Rattle.std.specs.Prelude.{◌≡◌, ◌<◌, ℕ, IfOk, List as Items, Option, length, slice_set, false};
ghost use Rattle.reo_values.specs.declared.value.Value.{Value as Item};
ghost use Rattle.reo_net_base.specs.declared.mark.Mark.TheVariants.{F};
ghost use Rattle.reo_net_base.specs.Sides.{AreRowsOf};
ghost use Rattle.reo_net_base.specs.Ends.{IsGiver};
ghost use Rattle.reo_net_base.specs.Net.{net_of, all_sides, behaviour_at, mark_at};
ghost use Rattle.reo_net_base.specs.Colouring.{RowsFit, given_at, item_given, IsFilled};
ghost use Rattle.reo_net_circuit.specs.found_ends.Ends.{AreEnds};

use crate::colouring::taken::taken_by;
use reo_net_base::{Colouring, End, Joint, Mark, Primitive};
use reo_net_circuit::{Circuit, Ends, ends_of};
use reo_values::{List, NoMemory, Value};
use std::alloc::Global;

/// The item that the row of an end gives there: none where the joint that decides has no item.
fn given_for<P: Primitive>(
    alloc: Global,
    circuit: &Circuit<P>,
    ends: &Ends,
    rows: &[u32],
    items: &[Option<Value>],
    giver: End,
) -> Result<Option<Value>, NoMemory>
    requires ends { AreEnds (net_of P.behaviour circuit.now) ends.now }
    requires rows { AreRowsOf (net_of P.behaviour circuit.now) rows.now }
    requires items { length items.now ≡ length circuit.now.joints }
    requires giver { IsGiver (net_of P.behaviour circuit.now) giver }
    requires flows { mark_at (net_of P.behaviour circuit.now) rows.now giver ≡ F }
    ensures { let net = net_of P.behaviour circuit.now in
        IfOk result (λ found. found ≡ given_at net rows.now items.now giver) }
{
    circuit.known();
    let row = circuit.row_at(rows, giver);
    let primitive = circuit.primitive(giver.primitive);
    let side = primitive.side_of(giver.end);
    match primitive.from(side, row, giver.end) {
        None => {
            let item = primitive.gives(alloc, side, row, giver.end, None)?;
            Ok(Some(item))
        }
        Some(from) => {
            let source = End {
                primitive: giver.primitive,
                end: from,
            };
            match taken_by(circuit, ends, items, source) {
                None => Ok(None),
                Some(item) => {
                    let item = primitive.gives(alloc, side, row, giver.end, Some(item))?;
                    Ok(Some(item))
                }
            }
        }
    }
}

/// The item that the rows put at a joint.
#[tactic(auto, unfolding(reo_net_base::specs::Colouring::item_given))]
fn item_for<P: Primitive>(
    alloc: Global,
    circuit: &Circuit<P>,
    ends: &Ends,
    rows: &[u32],
    items: &[Option<Value>],
    joint: Joint,
) -> Result<Option<Value>, NoMemory>
    requires ends { AreEnds (net_of P.behaviour circuit.now) ends.now }
    requires rows { AreRowsOf (net_of P.behaviour circuit.now) rows.now }
    requires items { length items.now ≡ length circuit.now.joints }
    requires giver { IsGiver (net_of P.behaviour circuit.now) joint.giver }
    ensures { let net = net_of P.behaviour circuit.now in
        IfOk result (λ found. found ≡ item_given net rows.now items.now joint) }
{
    match circuit.mark_at(rows, joint.giver) {
        Mark::F => given_for(alloc, circuit, ends, rows, items, joint.giver),
        _ => Ok(None),
    }
}

/// No item at any joint.
fn no_items(alloc: Global, count: usize) -> Result<Vec<Option<Value>>, NoMemory>
    ensures { IfOk result (λ items. length items.items ≡ count) }
{
    let mut items = List::new(alloc);
    for index in 0..count {
        let _ = index;
        items.push(None)?;
    }
    Ok(items.into_vec())
}

/// Puts an item at a joint.
fn put_item(items: &mut Vec<Option<Value>>, joint: usize, item: Option<Value>)
    requires { joint < length items.old.items }
    ensures { items.new.items ≡ slice_set items.old.items joint item }
{
    items[joint] = item;
}

/// The items that rows determine, joint by joint, each after those that feed it.
pub(crate) fn items_of<P: Primitive>(
    alloc: Global,
    circuit: &Circuit<P>,
    ends: &Ends,
    rows: &[u32],
) -> Result<List<Option<Value>>, NoMemory>
    requires ends { AreEnds (net_of P.behaviour circuit.now) ends.now }
    requires rows { AreRowsOf (net_of P.behaviour circuit.now) rows.now }
    ensures filled { IfOk result (IsFilled (net_of P.behaviour circuit.now) rows.now) }
    ensures one { let net = net_of P.behaviour circuit.now in IfOk result (λ items.
        (others : Items (Option Item)) → IsFilled net rows.now others → others ≡ items) }
{
    circuit.known();
    let order = circuit.order();
    let mut items = no_items(alloc, circuit.joint_count())?;
    for at in 0..order.len() {
        let index = order[at];
        let joint = circuit.joint(index);
        let item = item_for(alloc, circuit, ends, rows, &items, joint)?;
        put_item(&mut items, index, item);
    }
    Ok(List::from_vec(items))
}

/// The rows with the items that they determine, whether or not they are let in, by the joints of
/// the circuit's ends. It costs as many steps as there are joints. `NoMemory` is out of memory.
pub fn fill_with<P: Primitive>(
    alloc: Global,
    circuit: &Circuit<P>,
    ends: &Ends,
    rows: List<u32>,
) -> Result<Colouring, NoMemory>
    requires ends { AreEnds (net_of P.behaviour circuit.now) ends.now }
    requires rows { RowsFit (net_of P.behaviour circuit.now) rows }
    ensures rows { IfOk result (λ filled. filled.rows ≡ rows) }
    ensures items { let net = net_of P.behaviour circuit.now in
        IfOk result (λ filled. IsFilled net rows filled.items) }
    ensures one { let net = net_of P.behaviour circuit.now in IfOk result (λ filled.
        (others : Items (Option Item)) → IsFilled net rows others → others ≡ filled.items) }
{
    let items = items_of(alloc, circuit, ends, rows.as_slice())?;
    Ok(Colouring { rows, items })
}

/// The rows with the items that they determine, whether or not they are let in. It costs as many
/// steps as the circuit has ends and joints. `NoMemory` is out of memory.
pub fn fill<P: Primitive>(
    alloc: Global,
    circuit: &Circuit<P>,
    rows: List<u32>,
) -> Result<Colouring, NoMemory>
    requires { RowsFit (net_of P.behaviour circuit.now) rows }
    ensures rows { IfOk result (λ filled. filled.rows ≡ rows) }
    ensures items { let net = net_of P.behaviour circuit.now in
        IfOk result (λ filled. IsFilled net rows filled.items) }
    ensures one { let net = net_of P.behaviour circuit.now in IfOk result (λ filled.
        (others : Items (Option Item)) → IsFilled net rows others → others ≡ filled.items) }
{
    let ends = ends_of(alloc, circuit)?;
    fill_with(alloc, circuit, &ends, rows)
}
