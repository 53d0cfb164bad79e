//! What rows give at an end.
ghost use Rattle.std.specs.Prelude.{◌≡◌, ◌≤◌, OnOk, Some, None, Contains, length};
ghost use Rattle.reo_values.specs.declared.value.Value.{Value as Item};
ghost use Rattle.reo_net_base.specs.Net.{net_of, end_of};
ghost use Rattle.reo_net_laws.specs.Ends.{from_in};
ghost use Rattle.reo_joint_values.specs.Standing.{GivesAlone, IsGivenFor};
ghost use Rattle.reo_reach.specs.Giving.{IsGiving, FlowsThere};
ghost use Rattle.reo_reach.specs.Added.{AreAdded, IsProduced};

use crate::giving::Giving;
use crate::stock::{add, is_full};
use reo_net_base::{End, Mark, Primitive};
use reo_values::{List, NoMemory, Value};
use std::alloc::Global;

/// Adds the item that a row gives by the state alone.
fn add_alone<P: Primitive>(
    alloc: Global,
    giving: &Giving<'_, P>,
    items: &mut List<Value>,
) -> Result<(), NoMemory>
    requires giving { IsGiving (net_of P.behaviour giving.now.circuit.now) giving.now }
    requires flows { FlowsThere (net_of P.behaviour giving.now.circuit.now) giving.now }
    requires alone { let net = net_of P.behaviour giving.now.circuit.now in
        from_in net giving.now.row giving.now.giver ≡ None }
    requires room { length items.old ≤ 256 }
    ensures { let net = net_of P.behaviour giving.now.circuit.now in
        OnOk result (AreAdded items.old items.new
        (GivesAlone net giving.now.giver giving.now.row)) }
{
    giving.circuit.known();
    let primitive = giving.circuit.primitive(giving.giver.primitive);
    let side = primitive.side_of(giving.giver.end);
    let item = primitive.gives(alloc, side, giving.row, giving.giver.end, None)?;
    add(items, item)
}

/// Adds the item that a row gives for one that it takes, if it lets that one in.
fn add_for<P: Primitive>(
    alloc: Global,
    giving: &Giving<'_, P>,
    from: usize,
    taken: &Value,
    items: &mut List<Value>,
) -> Result<(), NoMemory>
    requires giving { IsGiving (net_of P.behaviour giving.now.circuit.now) giving.now }
    requires flows { FlowsThere (net_of P.behaviour giving.now.circuit.now) giving.now }
    requires decides { let net = net_of P.behaviour giving.now.circuit.now in
        from_in net giving.now.row giving.now.giver ≡ Some from }
    ensures { let net = net_of P.behaviour giving.now.circuit.now in
        let source = end_of giving.now.giver.primitive from in
        OnOk result (AreAdded items.old items.new
        (IsGivenFor net giving.now.giver giving.now.row source taken.now)) }
{
    giving.circuit.known();
    let primitive = giving.circuit.primitive(giving.giver.primitive);
    let side = primitive.side_of(giving.giver.end);
    if is_full(items.as_slice()) {
        return Ok(());
    }
    if !primitive.passes(side, giving.row, from, taken) {
        return Ok(());
    }
    let item = primitive.gives(alloc, side, giving.row, giving.giver.end, Some(taken))?;
    add(items, item)
}

/// Adds the items that a row gives for those that it takes.
fn add_passed<P: Primitive>(
    alloc: Global,
    giving: &Giving<'_, P>,
    from: usize,
    taken: &[Value],
    items: &mut List<Value>,
) -> Result<(), NoMemory>
    requires giving { IsGiving (net_of P.behaviour giving.now.circuit.now) giving.now }
    requires flows { FlowsThere (net_of P.behaviour giving.now.circuit.now) giving.now }
    requires decides { let net = net_of P.behaviour giving.now.circuit.now in
        from_in net giving.now.row giving.now.giver ≡ Some from }
    ensures { let net = net_of P.behaviour giving.now.circuit.now in
        let source = end_of giving.now.giver.primitive from in
        OnOk result (AreAdded items.old items.new (λ x. (u : Item) × Contains taken.now u
        × IsGivenFor net giving.now.giver giving.now.row source u x)) }
{
    for index in 0..taken.len() {
        add_for(alloc, giving, from, &taken[index], items)?;
    }
    Ok(())
}

/// Adds the items that a row gives at an end by which it flows.
fn add_given<P: Primitive>(
    alloc: Global,
    giving: &Giving<'_, P>,
    items: &mut List<Value>,
) -> Result<(), NoMemory>
    requires giving { IsGiving (net_of P.behaviour giving.now.circuit.now) giving.now }
    requires flows { FlowsThere (net_of P.behaviour giving.now.circuit.now) giving.now }
    requires room { length items.old ≤ 256 }
    ensures { let net = net_of P.behaviour giving.now.circuit.now in
        OnOk result (AreAdded items.old items.new
        (IsProduced net giving.now.supply.now giving.now.giver giving.now.row)) }
{
    giving.circuit.known();
    let primitive = giving.circuit.primitive(giving.giver.primitive);
    let side = primitive.side_of(giving.giver.end);
    match primitive.from(side, giving.row, giving.giver.end) {
        None => add_alone(alloc, giving, items),
        Some(from) => {
            let source = End {
                primitive: giving.giver.primitive,
                end: from,
            };
            let taken = giving.supply.items(giving.ends.joint_at(source));
            add_passed(alloc, giving, from, taken.as_slice(), items)
        }
    }
}

/// Adds the items that a row gives at an end, if it flows there and the list is not full.
pub(crate) fn add_row<P: Primitive>(
    alloc: Global,
    giving: &Giving<'_, P>,
    items: &mut List<Value>,
) -> Result<(), NoMemory>
    requires giving { IsGiving (net_of P.behaviour giving.now.circuit.now) giving.now }
    ensures { let net = net_of P.behaviour giving.now.circuit.now in
        OnOk result (AreAdded items.old items.new
        (IsProduced net giving.now.supply.now giving.now.giver giving.now.row)) }
{
    giving.circuit.known();
    let primitive = giving.circuit.primitive(giving.giver.primitive);
    if is_full(items.as_slice()) {
        return Ok(());
    }
    let side = primitive.side_of(giving.giver.end);
    match primitive.mark(side, giving.row, giving.giver.end) {
        Mark::F => add_given(alloc, giving, items),
        _ => Ok(()),
    }
}
