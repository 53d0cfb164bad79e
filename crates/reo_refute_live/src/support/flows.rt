//! Whether what a row takes in and gives with flow may stand.
ghost use Rattle.std.specs.Prelude.{◌≡◌, ◌↔◌, ◌<◌, IsTrue, Some, None, true, false, length, option_copied, slice_index};
ghost use Rattle.reo_net_base.specs.Net.{net_of};
ghost use Rattle.reo_net_laws.specs.Ends.{IsRowOf};
ghost use Rattle.reo_joint_values.specs.Works.{IsGivenIn, TakerHas};
ghost use Rattle.reo_side_tables.specs.Marks.{GivesFlow, TakesFlow};
ghost use Rattle.reo_refute_base.specs.Items.{numbered};
ghost use Rattle.reo_refute_live.specs.support.Asked.{IsAsked, held_in};
ghost use Rattle.reo_refute_live.specs.support.Columns.{IsColumn};
ghost use Rattle.reo_refute_live.specs.support.Flows.{IsPassedOn, FlowStands, FlowsStand};

use crate::support::asked::Asked;
use crate::support::columns::Column;
use crate::support::live::may_flow;
use reo_net_base::Primitive;
use reo_side_tables::{follows, gives_item, lets_in, source_of};
use reo_values::Value;

/// The byte of flow.
const FLOW: u8 = 1;

/// Whether at a joint some item that may flow is what a row gives there for what it takes.
fn gives_some<P: Primitive>(
    asked: &Asked<'_, P>,
    row: usize,
    joint: usize,
    taken: Option<&Value>,
) -> bool
    requires ready { IsAsked (net_of P.behaviour asked.now.circuit.now) asked.now }
    requires row { IsRowOf (net_of P.behaviour asked.now.circuit.now) asked.now.side row }
    requires gives { GivesFlow (net_of P.behaviour asked.now.circuit.now) asked.now.side row joint }
    ensures { let net = net_of P.behaviour asked.now.circuit.now in
        IsTrue result ↔ IsGivenIn net (numbered asked.now.lists.now) (held_in asked.now)
        row joint (option_copied taken.entry) }
{
    let lists = asked.lists;
    let items = &lists[joint];
    for number in 0..items.len() {
        if may_flow(asked.live, asked.held, asked.value, joint, number)
            && gives_item(
                asked.circuit,
                asked.side,
                row,
                joint,
                taken,
                items.at(number),
            )
        {
            return true;
        }
    }
    false
}

/// Whether a row flows at a column.
fn flows_at(column: &Column, row: usize) -> bool
    requires { row < length column.now.marks }
    ensures { IsTrue result ↔ (slice_index column.now.marks row ≡ 1) }
{
    *column.marks.at(row) == FLOW
}

/// Whether some item may flow at each joint where a row gives for an item that it takes in.
fn passes_on<P: Primitive>(asked: &Asked<'_, P>, row: usize, joint: usize, item: &Value) -> bool
    requires ready { IsAsked (net_of P.behaviour asked.now.circuit.now) asked.now }
    requires row { IsRowOf (net_of P.behaviour asked.now.circuit.now) asked.now.side row }
    requires takes { TakesFlow (net_of P.behaviour asked.now.circuit.now) asked.now.side row joint }
    ensures { let net = net_of P.behaviour asked.now.circuit.now in
        IsTrue result ↔ IsPassedOn net (numbered asked.now.lists.now) (held_in asked.now)
        asked.now.side row joint (Some item.now) }
{
    asked.circuit.known();
    let columns = asked.columns;
    for index in 0..columns.len() {
        let other = &columns[index];
        if other.gives
            && flows_at(other, row)
            && follows(asked.circuit, asked.side, row, other.joint, joint)
            && !gives_some(asked, row, other.joint, Some(item))
        {
            return false;
        }
    }
    true
}

/// Whether at a joint a row lets in some item that may flow and for which it gives items that may.
fn takes_some<P: Primitive>(asked: &Asked<'_, P>, row: usize, joint: usize) -> bool
    requires ready { IsAsked (net_of P.behaviour asked.now.circuit.now) asked.now }
    requires row { IsRowOf (net_of P.behaviour asked.now.circuit.now) asked.now.side row }
    requires takes { TakesFlow (net_of P.behaviour asked.now.circuit.now) asked.now.side row joint }
    ensures { let net = net_of P.behaviour asked.now.circuit.now in
        IsTrue result ↔ TakerHas net (numbered asked.now.lists.now) (held_in asked.now)
        asked.now.side row joint }
{
    let lists = asked.lists;
    let items = &lists[joint];
    for number in 0..items.len() {
        let item = items.at(number);
        if may_flow(asked.live, asked.held, asked.value, joint, number)
            && lets_in(asked.circuit, asked.side, row, joint, item)
            && passes_on(asked, row, joint, item)
        {
            return true;
        }
    }
    false
}

/// Whether what a row takes in or gives by a column, where it flows there, may stand.
fn flow_stands<P: Primitive>(asked: &Asked<'_, P>, row: usize, column: &Column) -> bool
    requires ready { IsAsked (net_of P.behaviour asked.now.circuit.now) asked.now }
    requires row { IsRowOf (net_of P.behaviour asked.now.circuit.now) asked.now.side row }
    requires column { let net = net_of P.behaviour asked.now.circuit.now in
        IsColumn net asked.now.side column.now }
    ensures { let net = net_of P.behaviour asked.now.circuit.now in
        IsTrue result ↔ FlowStands net (numbered asked.now.lists.now) (held_in asked.now)
        asked.now.side row column.now }
{
    asked.circuit.known();
    if !flows_at(column, row) {
        return true;
    }
    let joint = column.joint;
    if !column.gives {
        return takes_some(asked, row, joint);
    }
    match source_of(asked.circuit, asked.side, row, joint) {
        Some(_) => true,
        None => gives_some(asked, row, joint, None),
    }
}

/// Whether what a row takes in and gives with flow may stand at each column.
pub(crate) fn flows_stand<P: Primitive>(asked: &Asked<'_, P>, row: usize) -> bool
    requires ready { IsAsked (net_of P.behaviour asked.now.circuit.now) asked.now }
    requires row { IsRowOf (net_of P.behaviour asked.now.circuit.now) asked.now.side row }
    ensures { let net = net_of P.behaviour asked.now.circuit.now in
        IsTrue result ↔ FlowsStand net (numbered asked.now.lists.now) (held_in asked.now)
        asked.now.side row asked.now.columns.now }
{
    let columns = asked.columns;
    for index in 0..columns.len() {
        let column = &columns[index];
        if !flow_stands(asked, row, column) {
            return false;
        }
    }
    true
}
