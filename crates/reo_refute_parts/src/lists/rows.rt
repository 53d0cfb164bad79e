//! What rows give at an end.
ghost use Rattle.std.specs.Prelude.{◌≡◌, ◌<◌, ◌+◌, OnOk, Some, None, length};
ghost use Rattle.std.specs.List.{flat_map};
ghost use Rattle.reo_net_base.specs.Behaviour.{IsPlainRow};
ghost use Rattle.reo_net_base.specs.Ends.{IsGiver};
ghost use Rattle.reo_net_base.specs.Net.{net_of, behaviour_at, end_of};
ghost use Rattle.reo_net_laws.specs.Ends.{from_in};
ghost use Rattle.reo_net_circuit.specs.found_ends.Ends.{AreEnds};
ghost use Rattle.reo_joint_values.specs.Fitting.{given_for};
ghost use Rattle.reo_joint_values.specs.Standing.{FlowsAt};
ghost use Rattle.reo_refute_base.specs.Items.{given_on, given_from, listed};
ghost use Rattle.reo_refute_parts.specs.lists.Noted.{IsNoted};
ghost use Rattle.reo_refute_parts.specs.lists.Given.{given_at};

use crate::lists::noting::note;
use reo_net_base::{End, Mark, Primitive};
use reo_net_circuit::{Circuit, Ends};
use reo_values::{List, NoMemory, Value};
use std::alloc::Global;

/// A row at an end that gives, in a circuit with the joint at each end and the items that stand at
/// each joint so far.
#[derive(Drop)]
pub(crate) struct Bringing<'a, P: Primitive> {
    pub(crate) circuit: &'a Circuit<P>,
    pub(crate) ends: &'a Ends,
    pub(crate) lists: &'a [List<Value>],
    pub(crate) giver: End,
    pub(crate) row: usize,
}

/// Notes the item that a row gives by the state alone.
fn note_alone<P: Primitive>(
    alloc: Global,
    giving: &Bringing<'_, P>,
    old: &[Value],
    new: &mut List<Value>,
) -> Result<(), NoMemory>
    requires giver { IsGiver (net_of P.behaviour giving.now.circuit.now) giving.now.giver }
    requires flows { FlowsAt (net_of P.behaviour giving.now.circuit.now) giving.now.giver
        giving.now.row }
    requires alone { from_in (net_of P.behaviour giving.now.circuit.now) giving.now.row
        giving.now.giver ≡ None }
    ensures { let net = net_of P.behaviour giving.now.circuit.now in
        OnOk result (IsNoted old.now new.old (listed (given_for net giving.now.row giving.now.giver
        None)) new.new) }
{
    giving.circuit.known();
    let primitive = giving.circuit.primitive(giving.giver.primitive);
    let side = primitive.side_of(giving.giver.end);
    let item = primitive.gives(alloc, side, giving.row, giving.giver.end, None)?;
    note(old, new, item)
}

/// Notes the item that a row gives for one that it takes, if it lets that one in.
fn note_for<P: Primitive>(
    alloc: Global,
    giving: &Bringing<'_, P>,
    from: usize,
    taken: &Value,
    old: &[Value],
    new: &mut List<Value>,
) -> Result<(), NoMemory>
    requires giver { IsGiver (net_of P.behaviour giving.now.circuit.now) giving.now.giver }
    requires flows { FlowsAt (net_of P.behaviour giving.now.circuit.now) giving.now.giver
        giving.now.row }
    requires decides { from_in (net_of P.behaviour giving.now.circuit.now) giving.now.row
        giving.now.giver ≡ Some from }
    ensures { let net = net_of P.behaviour giving.now.circuit.now in
        let source = end_of giving.now.giver.primitive from in
        OnOk result (IsNoted old.now new.old (given_on net giving.now.row giving.now.giver source
        taken.now) new.new) }
{
    giving.circuit.known();
    let primitive = giving.circuit.primitive(giving.giver.primitive);
    let side = primitive.side_of(giving.giver.end);
    if !primitive.passes(side, giving.row, from, taken) {
        return Ok(());
    }
    let item = primitive.gives(alloc, side, giving.row, giving.giver.end, Some(taken))?;
    note(old, new, item)
}

/// Notes the items that a row gives for those that it takes.
fn note_passed<P: Primitive>(
    alloc: Global,
    giving: &Bringing<'_, P>,
    from: usize,
    taken: &[Value],
    old: &[Value],
    new: &mut List<Value>,
) -> Result<(), NoMemory>
    requires giver { IsGiver (net_of P.behaviour giving.now.circuit.now) giving.now.giver }
    requires flows { FlowsAt (net_of P.behaviour giving.now.circuit.now) giving.now.giver
        giving.now.row }
    requires decides { from_in (net_of P.behaviour giving.now.circuit.now) giving.now.row
        giving.now.giver ≡ Some from }
    ensures { let net = net_of P.behaviour giving.now.circuit.now in
        let source = end_of giving.now.giver.primitive from in
        OnOk result (IsNoted old.now new.old (flat_map (given_on net giving.now.row giving.now.giver
        source) taken.now) new.new) }
{
    for index in 0..taken.len() {
        note_for(alloc, giving, from, &taken[index], old, new)?;
    }
    Ok(())
}

/// Notes the items that a row gives at an end by which it flows.
fn note_given<P: Primitive>(
    alloc: Global,
    giving: &Bringing<'_, P>,
    old: &[Value],
    new: &mut List<Value>,
) -> Result<(), NoMemory>
    requires ends { AreEnds (net_of P.behaviour giving.now.circuit.now) giving.now.ends.now }
    requires lists { length giving.now.lists.now ≡ length giving.now.circuit.now.joints }
    requires giver { IsGiver (net_of P.behaviour giving.now.circuit.now) giving.now.giver }
    requires flows { FlowsAt (net_of P.behaviour giving.now.circuit.now) giving.now.giver
        giving.now.row }
    ensures { let net = net_of P.behaviour giving.now.circuit.now in
        OnOk result (IsNoted old.now new.old
        (given_from net giving.now.lists.now giving.now.row giving.now.giver
        (from_in net giving.now.row giving.now.giver)) new.new) }
{
    giving.circuit.known();
    let primitive = giving.circuit.primitive(giving.giver.primitive);
    let side = primitive.side_of(giving.giver.end);
    match primitive.from(side, giving.row, giving.giver.end) {
        None => note_alone(alloc, giving, old, new),
        Some(from) => {
            let source = End {
                primitive: giving.giver.primitive,
                end: from,
            };
            let taken = giving.lists[giving.ends.joint_at(source)].as_slice();
            note_passed(alloc, giving, from, taken, old, new)
        }
    }
}

/// Notes the items that a row gives at an end, if it flows there.
pub(crate) fn note_row<P: Primitive>(
    alloc: Global,
    giving: &Bringing<'_, P>,
    old: &[Value],
    new: &mut List<Value>,
) -> Result<(), NoMemory>
    requires ends { AreEnds (net_of P.behaviour giving.now.circuit.now) giving.now.ends.now }
    requires lists { length giving.now.lists.now ≡ length giving.now.circuit.now.joints }
    requires giver { IsGiver (net_of P.behaviour giving.now.circuit.now) giving.now.giver }
    requires row { let net = net_of P.behaviour giving.now.circuit.now in
        let b = behaviour_at net.primitives giving.now.giver.primitive in
        IsPlainRow b (b.side_of giving.now.giver.end) giving.now.row }
    ensures { let net = net_of P.behaviour giving.now.circuit.now in
        OnOk result (IsNoted old.now new.old (given_at net giving.now.lists.now giving.now.giver
        giving.now.row) new.new) }
{
    giving.circuit.known();
    let primitive = giving.circuit.primitive(giving.giver.primitive);
    match primitive.mark(
        primitive.side_of(giving.giver.end),
        giving.row,
        giving.giver.end,
    ) {
        Mark::F => note_given(alloc, giving, old, new),
        _ => Ok(()),
    }
}
