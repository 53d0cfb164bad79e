//! Where the rows of a side flow.
ghost use Rattle.std.specs.Prelude.{◌≡◌, ◌↔◌, ◌<◌, ℕ, [], IsTrue, Some, IfOk, OnOk, length, slice_index, slice_index_or};
ghost use Rattle.reo_net_base.specs.Net.{net_of, all_sides, row_count};
ghost use Rattle.reo_side_tables.specs.declared.board.Flow.{Flow as Flowing};
ghost use Rattle.reo_side_tables.specs.Boards.{IsFlow};
ghost use Rattle.reo_side_tables.specs.Listing.{Lists};
ghost use Rattle.reo_side_tables.specs.Flowing.{AreBlank, AreAdded, IsFlowAdded};
ghost use Rattle.reo_side_tables.specs.Grouping.{ByGroup, IsOfGroup, IsAsGroup, IsAsSomeGroup};
ghost use Rattle.reo_side_tables.specs.Marks.{side_in, groups_in, apart_in, common_in, end_at, IsJointOf, IsApartAt};
ghost use Rattle.reo_net_base.specs.declared.mark.Mark.TheVariants.{F};
ghost use Rattle.reo_net_laws.specs.Ends.{IsRowOf};

use crate::board::Flow;
use crate::joints::{add, empty_lists};
use crate::marks::{end_at, giver_side, mark_at_joint};
use reo_net_base::Primitive;
use reo_net_circuit::Circuit;
use reo_values::{List, NoMemory};
use std::alloc::Global;

/// No joints yet, for so many rows.
fn no_flows(alloc: Global, rows: usize) -> Result<List<Flow>, NoMemory>
    ensures { IfOk result (AreBlank rows) }
{
    let mut flows = List::new(alloc);
    for _row in 0..rows {
        flows.push(Flow {
            taking: List::new(alloc),
            giving: List::new(alloc),
        })?;
    }
    Ok(flows)
}

/// The rows of a side in their groups.
fn rows_by_group<P: Primitive>(
    alloc: Global,
    circuit: &Circuit<P>,
    side: usize,
) -> Result<List<List<usize>>, NoMemory>
    requires side { side < length (all_sides (net_of P.behaviour circuit.now).primitives) }
    ensures { IfOk result (ByGroup (net_of P.behaviour circuit.now) side) }
{
    let mut lists = empty_lists(alloc, circuit.groups(side))?;
    for row in 0..circuit.rows(side) {
        add(&mut lists, circuit.group(side, row), row)?;
    }
    Ok(lists)
}

/// A row flows at a joint.
fn add_flow(flows: &mut List<Flow>, row: usize, joint: usize, gives: bool) -> Result<(), NoMemory>
    requires { row < length flows.old }
    ensures { OnOk result (IsFlowAdded flows.old flows.new row joint gives) }
{
    let flow = flows.at_mut(row);
    if gives {
        flow.giving.push(joint)
    } else {
        flow.taking.push(joint)
    }
}

/// Whether a row of a side is not as its group at an end.
fn is_apart_at<P: Primitive>(circuit: &Circuit<P>, side: usize, row: usize, end: usize) -> bool
    requires side { side < length (all_sides (net_of P.behaviour circuit.now).primitives) }
    requires row { IsRowOf (net_of P.behaviour circuit.now) side row }
    ensures { IsTrue result ↔ (apart_in (net_of P.behaviour circuit.now) side row ≡ Some end) }
{
    match circuit.apart(side, row) {
        None => false,
        Some(found) => found == end,
    }
}

/// The rows of a group that flow at a joint, since their group does.
fn add_group<P: Primitive>(
    circuit: &Circuit<P>,
    flows: &mut List<Flow>,
    side: usize,
    group: usize,
    rows: &[usize],
    joint: usize,
) -> Result<(), NoMemory>
    requires side { side < length (all_sides (net_of P.behaviour circuit.now).primitives) }
    requires one_each { let net = net_of P.behaviour circuit.now in
        length flows.old ≡ row_count (side_in net side) }
    requires joint { IsJointOf (net_of P.behaviour circuit.now) side joint }
    requires group { group < groups_in (net_of P.behaviour circuit.now) side }
    requires rows { Lists (IsOfGroup (net_of P.behaviour circuit.now) side group) rows.now }
    requires flows { let net = net_of P.behaviour circuit.now in
        common_in net side group (end_at net side joint).end ≡ F }
    ensures { let net = net_of P.behaviour circuit.now in
        OnOk result (AreAdded net side joint (IsAsGroup net side group joint) flows.old flows.new) }
{
    circuit.known();
    let gives = giver_side(circuit, joint) == side;
    let end = end_at(circuit, side, joint).end;
    for index in 0..rows.len() {
        let row = rows[index];
        if !is_apart_at(circuit, side, row, end) {
            add_flow(flows, row, joint, gives)?;
        }
    }
    Ok(())
}

/// The rows that flow at a joint, where they are not as their group.
fn add_apart<P: Primitive>(
    circuit: &Circuit<P>,
    flows: &mut List<Flow>,
    side: usize,
    rows: &[usize],
    joint: usize,
) -> Result<(), NoMemory>
    requires side { side < length (all_sides (net_of P.behaviour circuit.now).primitives) }
    requires one_each { let net = net_of P.behaviour circuit.now in
        length flows.old ≡ row_count (side_in net side) }
    requires joint { IsJointOf (net_of P.behaviour circuit.now) side joint }
    requires rows { let net = net_of P.behaviour circuit.now in
        Lists (IsApartAt net side (end_at net side joint).end) rows.now }
    ensures { let net = net_of P.behaviour circuit.now in
        OnOk result (AreAdded net side joint (IsApartAt net side (end_at net side joint).end)
        flows.old flows.new) }
{
    circuit.known();
    let gives = giver_side(circuit, joint) == side;
    for index in 0..rows.len() {
        let row = rows[index];
        if mark_at_joint(circuit, side, row, joint).is_flow() {
            add_flow(flows, row, joint, gives)?;
        }
    }
    Ok(())
}

/// The rows of the groups that flow at a joint.
fn add_groups<P: Primitive>(
    circuit: &Circuit<P>,
    flows: &mut List<Flow>,
    side: usize,
    by_group: &List<List<usize>>,
    joint: usize,
) -> Result<(), NoMemory>
    requires side { side < length (all_sides (net_of P.behaviour circuit.now).primitives) }
    requires one_each { let net = net_of P.behaviour circuit.now in
        length flows.old ≡ row_count (side_in net side) }
    requires joint { IsJointOf (net_of P.behaviour circuit.now) side joint }
    requires groups { ByGroup (net_of P.behaviour circuit.now) side by_group.now }
    ensures { let net = net_of P.behaviour circuit.now in
        OnOk result (AreAdded net side joint (IsAsSomeGroup net side joint) flows.old flows.new) }
{
    circuit.known();
    let end = end_at(circuit, side, joint).end;
    for group in 0..by_group.len() {
        if circuit.common(side, group, end).is_flow() {
            add_group(
                circuit,
                flows,
                side,
                group,
                by_group.at(group).as_slice(),
                joint,
            )?;
        }
    }
    Ok(())
}

/// All rows that flow at a joint.
fn add_joint<P: Primitive>(
    circuit: &Circuit<P>,
    flows: &mut List<Flow>,
    side: usize,
    by_group: &List<List<usize>>,
    apart: &List<List<usize>>,
    joint: usize,
) -> Result<(), NoMemory>
    requires side { side < length (all_sides (net_of P.behaviour circuit.now).primitives) }
    requires one_each { let net = net_of P.behaviour circuit.now in
        length flows.old ≡ row_count (side_in net side) }
    requires joint { IsJointOf (net_of P.behaviour circuit.now) side joint }
    requires groups { ByGroup (net_of P.behaviour circuit.now) side by_group.now }
    requires ends { length apart.now ≡ (side_in (net_of P.behaviour circuit.now) side).of.ends }
    requires apart { let net = net_of P.behaviour circuit.now in
        (end : ℕ) → Lists (IsApartAt net side end) (slice_index_or apart.now end []) }
    ensures { let net = net_of P.behaviour circuit.now in
        OnOk result (AreAdded net side joint (IsRowOf net side) flows.old flows.new) }
{
    circuit.known();
    let end = end_at(circuit, side, joint).end;
    add_groups(circuit, flows, side, by_group, joint)?;
    add_apart(circuit, flows, side, apart.at(end).as_slice(), joint)?;
    Ok(())
}

/// Where each row of a side flows.
pub(crate) fn flows_of<P: Primitive>(
    alloc: Global,
    circuit: &Circuit<P>,
    side: usize,
    joints: &[usize],
    apart: &List<List<usize>>,
) -> Result<List<Flow>, NoMemory>
    requires side { side < length (all_sides (net_of P.behaviour circuit.now).primitives) }
    requires joints { Lists (IsJointOf (net_of P.behaviour circuit.now) side) joints.now }
    requires ends { length apart.now ≡ (side_in (net_of P.behaviour circuit.now) side).of.ends }
    requires apart { let net = net_of P.behaviour circuit.now in
        (end : ℕ) → Lists (IsApartAt net side end) (slice_index_or apart.now end []) }
    ensures one_each { let net = net_of P.behaviour circuit.now in
        IfOk result (λ flows. length flows ≡ row_count (side_in net side)) }
    ensures flows { let net = net_of P.behaviour circuit.now in
        IfOk result (λ flows. (row : ℕ) (d : Flowing) → row < length flows
        → IsFlow net side row (slice_index_or flows row d)) }
{
    circuit.known();
    let by_group = rows_by_group(alloc, circuit, side)?;
    let mut flows = no_flows(alloc, circuit.rows(side))?;
    for index in 0..joints.len() {
        add_joint(circuit, &mut flows, side, &by_group, apart, joints[index])?;
    }
    Ok(flows)
}
