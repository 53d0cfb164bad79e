//! The items that the state gives at the sides of a part.
ghost use Rattle.std.specs.Prelude.{◌≡◌, ◌<◌, ℕ, true, Some, None, IfOk, IfSome, IsTrue, length, slice_index, slice_index_or};
ghost use Rattle.reo_net_base.specs.Behaviour.{IsEndOf};
ghost use Rattle.reo_net_base.specs.Net.{Side, all_sides, net_of};
ghost use Rattle.reo_net_base.specs.Sides.{side_count};
ghost use Rattle.reo_part_plans.specs.Given.{AreGiven, AreItems, Decide, GivesOnly, LetAllIn};

use reo_net_base::{Form, Primitive, Table};
use reo_net_circuit::Circuit;
use reo_values::{List, NoMemory, Value, copy, same_item};
use std::alloc::Global;

/// Whether items enter a primitive at some end of a side.
fn takes_in<P: Primitive>(primitive: &P, side: usize) -> bool
    ensures { IsTrue result → (end : ℕ) × IsEndOf (P.behaviour primitive.now) side end
        × ((P.behaviour primitive.now).takes_in end ≡ true) }
{
    for end in 0..primitive.ends() {
        if primitive.takes_in(end) && primitive.side_of(end) == side {
            return true;
        }
    }
    false
}

/// Whether it is told that the state alone gives nothing at a side: items enter there, or its one
/// end cannot flow.
fn gives_nothing<P: Primitive>(primitive: &P, side: usize) -> bool
    requires { side < (P.behaviour primitive.now).sides }
    ensures { IsTrue result → GivesOnly (P.behaviour primitive.now) side None }
{
    if takes_in(primitive, side) {
        return true;
    }
    match primitive.form(side) {
        Some(Form::Single(Table::Resting)) => true,
        _ => false,
    }
}

/// What the state alone gives at a side, an item or none. The outer `None` says that it is not
/// told. `NoMemory` is out of memory.
fn item_at<P: Primitive>(primitive: &P, side: usize) -> Result<Option<Option<Value>>, NoMemory>
    requires { side < (P.behaviour primitive.now).sides }
    ensures { IfOk result (λ told. IfSome told (GivesOnly (P.behaviour primitive.now) side)) }
{
    if gives_nothing(primitive, side) {
        return Ok(Some(None));
    }
    match primitive.front() {
        None => Ok(None),
        Some(item) => Ok(Some(Some(copy(item)?))),
    }
}

/// What the state alone gives at some sides, for each of them, or `None` where it is not told.
/// `NoMemory` is out of memory.
fn items_at<P: Primitive>(
    alloc: Global,
    circuit: &Circuit<P>,
    sides: &[usize],
) -> Result<Option<List<Option<Value>>>, NoMemory>
    requires { (m : ℕ) → m < length sides.now
        → slice_index sides.now m < side_count (net_of P.behaviour circuit.now) }
    ensures { IfOk result (λ told. IfSome told
        (AreItems (net_of P.behaviour circuit.now) sides.now)) }
{
    let mut items = List::new(alloc);
    for index in 0..sides.len() {
        let owner = circuit.owner(sides[index]);
        let primitive = circuit.primitive(owner.primitive);
        match item_at(primitive, owner.side)? {
            None => return Ok(None),
            Some(item) => items.push(item)?,
        }
    }
    Ok(Some(items))
}

/// Whether each row of some sides lets each item in, in each state.
fn are_open<P: Primitive>(circuit: &Circuit<P>, sides: &[usize]) -> bool
    requires { (m : ℕ) → m < length sides.now
        → slice_index sides.now m < side_count (net_of P.behaviour circuit.now) }
    ensures { IsTrue result → LetAllIn (net_of P.behaviour circuit.now) sides.now }
{
    for index in 0..sides.len() {
        let owner = circuit.owner(sides[index]);
        if !circuit.primitive(owner.primitive).is_open(owner.side) {
            return false;
        }
    }
    true
}

/// What decides at some sides besides their tables: no items where each row lets each item in, and
/// else those that the state gives, for each side. `None` says that they are not told.
///
/// # Errors
///
/// `NoMemory` is out of memory.
pub(crate) fn deciding<P: Primitive>(
    alloc: Global,
    circuit: &Circuit<P>,
    sides: &[usize],
) -> Result<Option<List<Option<Value>>>, NoMemory>
    requires { (m : ℕ) → m < length sides.now
        → slice_index sides.now m < side_count (net_of P.behaviour circuit.now) }
    ensures { IfOk result (λ told. IfSome told
        (Decide (net_of P.behaviour circuit.now) sides.now)) }
{
    if are_open(circuit, sides) {
        return Ok(Some(List::new(alloc)));
    }
    items_at(alloc, circuit, sides)
}

/// Whether it is told that the state gives this item at a side.
fn gives<P: Primitive>(circuit: &Circuit<P>, side: usize, item: &Value) -> bool
    requires { side < side_count (net_of P.behaviour circuit.now) }
    ensures { IsTrue result → (s : Side) →
        let at = slice_index_or (all_sides (net_of P.behaviour circuit.now).primitives) side s in
        GivesOnly at.of at.number (Some item.now) }
{
    let owner = circuit.owner(side);
    match circuit.primitive(owner.primitive).front() {
        None => false,
        Some(front) => same_item(front, item),
    }
}

/// Whether it is told that the state gives at some sides the items that are noted for them. Where
/// none is noted nothing is asked.
pub(crate) fn are_given<P: Primitive>(
    circuit: &Circuit<P>,
    sides: &[usize],
    items: &[Option<Value>],
) -> bool
    requires { (m : ℕ) → m < length sides.now
        → slice_index sides.now m < side_count (net_of P.behaviour circuit.now) }
    ensures { IsTrue result → AreGiven (net_of P.behaviour circuit.now) sides.now items.now }
{
    if items.len() > sides.len() {
        return false;
    }
    for index in 0..items.len() {
        if let Some(item) = &items[index] {
            if !gives(circuit, sides[index], item) {
                return false;
            }
        }
    }
    true
}
