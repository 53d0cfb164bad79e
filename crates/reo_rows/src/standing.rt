//! Whether rows have the marks of values at the joints of their side.
ghost use Rattle.std.specs.Prelude.{◌≡◌, ◌≢◌, ◌⊎◌, ◌↔◌, ◌<◌, ℕ, IsTrue, true, false, OnOk, MatchOption, Some, length, replicate, slice_index};
ghost use Rattle.reo_net_base.specs.Behaviour.{IsEndOf};
ghost use Rattle.reo_net_base.specs.Net.{net_of, all_sides};
ghost use Rattle.reo_net_laws.specs.Ends.{IsRowOf};
ghost use Rattle.reo_net_circuit.specs.found_ends.Ends.{AreEnds};
ghost use Rattle.reo_side_tables.specs.Marks.{side_in, groups_in, group_in, common_at_joint, IsJointOf};
ghost use Rattle.reo_rows.specs.Groups.{AreFit, FailsAt, IsOdd, Excuses, AreNoted};
ghost use Rattle.reo_side_tables.specs.Boards.{IsBoard};
ghost use Rattle.reo_rows.specs.RowFlags.{AreAlikeTables};
ghost use Rattle.reo_rows.specs.Sparing.{IsIdle, IsLacking, CanSpare, AreCleared, GroupsHave};
ghost use Rattle.reo_rows.specs.Rows.{AreTables, IsSpared};
ghost use Rattle.reo_rows.specs.Sets.{family_of};
ghost use Rattle.reo_rows.specs.Basis.{IsReadyOn};
ghost use Rattle.reo_rows.specs.Resting.{IsResting, HasRowPlaces};
ghost use Rattle.reo_rows.specs.Stands.{HasMark, IsAtEnd, MarksStand, GroupStandsBesides, StandsAtEnd};

use crate::basis::Basis;
use crate::flags::RowFlags;
use crate::groups::{Group, Odd};
use crate::lists::apart_there;
use crate::marks::marks_left;
use crate::resting::Resting;
use crate::rows::Rows;
use reo_lanes::keep_rows;
use reo_net_base::{End, Primitive};
use reo_net_circuit::{Circuit, Ends};
use reo_side_tables::{Board, Flow, end_at, mark_at_joint};
use reo_values::{List, NoMemory};

/// So many ones in the place of all bytes. `NoMemory` is out of memory.
fn all_ones(bytes: &mut Vec<u8>, count: usize) -> Result<(), NoMemory>
    ensures { OnOk result (bytes.new.items ≡ replicate count 1) }
{
    bytes.clear();
    match bytes.resize(count, 1) {
        Ok(()) => Ok(()),
        Err(_) => Err(NoMemory),
    }
}

/// Clears the bytes of the groups of a side that have the mark of no value at some joint.
fn clear_unfit<P: Primitive>(basis: &Basis<'_, P>, alive: &RowFlags, side: usize, fits: &mut [u8])
    requires ready { let net = net_of P.behaviour basis.now.circuit.now in
        IsReadyOn net basis.now alive.now }
    requires side { let net = net_of P.behaviour basis.now.circuit.now in
        side < length (all_sides net.primitives) }
    requires fits { let net = net_of P.behaviour basis.now.circuit.now in
        fits.old ≡ replicate (groups_in net side) 1 }
    ensures { let net = net_of P.behaviour basis.now.circuit.now in
        AreFit net (family_of alive.now) side fits.new }
{
    let groups = basis.circuit.groups(side);
    let board = basis.boards.at(side);
    for index in 0..board.joints.len() {
        let joint = *board.joints.at(index);
        let marks = marks_left(basis, alive, side, joint);
        let column = &board.columns.as_slice()[index * groups..(index + 1) * groups];
        keep_rows(column, marks.byte(), fits);
    }
}

/// Which groups of a side have the mark of some value at each joint: their bytes are not 0.
/// `NoMemory` is out of memory.
pub(crate) fn fit_groups<P: Primitive>(
    basis: &Basis<'_, P>,
    alive: &RowFlags,
    side: usize,
    fits: &mut Vec<u8>,
) -> Result<(), NoMemory>
    requires ready { let net = net_of P.behaviour basis.now.circuit.now in
        IsReadyOn net basis.now alive.now }
    requires side { let net = net_of P.behaviour basis.now.circuit.now in
        side < length (all_sides net.primitives) }
    ensures { let net = net_of P.behaviour basis.now.circuit.now in
        OnOk result (AreFit net (family_of alive.now) side fits.new.items) }
{
    all_ones(fits, basis.circuit.groups(side))?;
    clear_unfit(basis, alive, side, fits.as_mut_slice());
    Ok(())
}

/// Whether a group has the mark of some value at a joint of its side.
fn group_stands_at<P: Primitive>(
    basis: &Basis<'_, P>,
    alive: &RowFlags,
    side: usize,
    group: usize,
    joint: usize,
) -> bool
    requires ready { let net = net_of P.behaviour basis.now.circuit.now in
        IsReadyOn net basis.now alive.now }
    requires side { let net = net_of P.behaviour basis.now.circuit.now in
        side < length (all_sides net.primitives) }
    requires group { group < groups_in (net_of P.behaviour basis.now.circuit.now) side }
    requires joint { IsJointOf (net_of P.behaviour basis.now.circuit.now) side joint }
    ensures { let net = net_of P.behaviour basis.now.circuit.now in
        IsTrue result ↔ HasMark net (family_of alive.now) side joint
        (common_at_joint net side group joint) }
{
    basis.circuit.known();
    let end = end_at(basis.circuit, side, joint);
    let marks = marks_left(basis, alive, side, joint);
    marks.has(basis.circuit.common(side, group, end.end))
}

/// An end of a side at which a group has the mark of no value, if there is any but for one.
fn fails_besides<P: Primitive>(
    basis: &Basis<'_, P>,
    alive: &RowFlags,
    side: usize,
    group: usize,
    besides: Option<usize>,
) -> Option<usize>
    requires ready { let net = net_of P.behaviour basis.now.circuit.now in
        IsReadyOn net basis.now alive.now }
    requires side { let net = net_of P.behaviour basis.now.circuit.now in
        side < length (all_sides net.primitives) }
    requires group { group < groups_in (net_of P.behaviour basis.now.circuit.now) side }
    ensures { let net = net_of P.behaviour basis.now.circuit.now in
        MatchOption result (GroupStandsBesides net (family_of alive.now) side group besides)
        (λ end. (besides ≢ Some end) × FailsAt net (family_of alive.now) side group end) }
{
    let board = basis.boards.at(side);
    for index in 0..board.joints.len() {
        let joint = *board.joints.at(index);
        let end = end_at(basis.circuit, side, joint).end;
        if besides != Some(end) && !group_stands_at(basis, alive, side, group, joint) {
            return Some(end);
        }
    }
    None
}

/// Where a group has the mark of no value.
pub(crate) fn odd_of<P: Primitive>(
    basis: &Basis<'_, P>,
    alive: &RowFlags,
    side: usize,
    group: usize,
) -> Odd
    requires ready { let net = net_of P.behaviour basis.now.circuit.now in
        IsReadyOn net basis.now alive.now }
    requires side { let net = net_of P.behaviour basis.now.circuit.now in
        side < length (all_sides net.primitives) }
    requires group { group < groups_in (net_of P.behaviour basis.now.circuit.now) side }
    ensures { let net = net_of P.behaviour basis.now.circuit.now in
        IsOdd net (family_of alive.now) side group result }
{
    match fails_besides(basis, alive, side, group, None) {
        None => Odd::Nowhere,
        Some(end) => {
            match fails_besides(basis, alive, side, group, Some(end)) {
                None => Odd::At(end),
                Some(_) => Odd::Several,
            }
        }
    }
}

/// The joint at an end of a side.
fn joint_there<P: Primitive>(circuit: &Circuit<P>, ends: &Ends, side: usize, end: usize) -> usize
    requires ends { AreEnds (net_of P.behaviour circuit.now) ends.now }
    requires side { side < length (all_sides (net_of P.behaviour circuit.now).primitives) }
    requires end { let net = net_of P.behaviour circuit.now in
        IsEndOf (side_in net side).of (side_in net side).number end }
    ensures { IsAtEnd (net_of P.behaviour circuit.now) side end result }
{
    circuit.known();
    let owner = circuit.owner(side);
    ends.joint_at(End {
        primitive: owner.primitive,
        end,
    })
}

/// Whether a row has the mark of some value at an end of its side.
fn stands_at<P: Primitive>(
    basis: &Basis<'_, P>,
    alive: &RowFlags,
    side: usize,
    row: usize,
    end: usize,
) -> bool
    requires ready { let net = net_of P.behaviour basis.now.circuit.now in
        IsReadyOn net basis.now alive.now }
    requires side { let net = net_of P.behaviour basis.now.circuit.now in
        side < length (all_sides net.primitives) }
    requires row { IsRowOf (net_of P.behaviour basis.now.circuit.now) side row }
    requires end { let net = net_of P.behaviour basis.now.circuit.now in
        IsEndOf (side_in net side).of (side_in net side).number end }
    ensures { let net = net_of P.behaviour basis.now.circuit.now in
        IsTrue result ↔ StandsAtEnd net (family_of alive.now) side row end }
{
    basis.circuit.known();
    let joint = joint_there(basis.circuit, basis.ends, side, end);
    let marks = marks_left(basis, alive, side, joint);
    marks.has(mark_at_joint(basis.circuit, side, row, joint))
}

/// Whether a row that is apart at such an end, or nowhere, can have the mark of some value where
/// its group does not.
fn excuses(odd: Odd, apart: Option<usize>) -> bool
    ensures { IsTrue result ↔ Excuses odd apart }
{
    match odd {
        Odd::Nowhere => true,
        Odd::At(end) => apart == Some(end),
        Odd::Several => false,
    }
}

/// Whether a row has the mark of some value at each joint of its side, where its group is as said.
pub(crate) fn marks_stand<P: Primitive>(
    basis: &Basis<'_, P>,
    alive: &RowFlags,
    side: usize,
    row: usize,
    odd: Odd,
) -> bool
    requires ready { let net = net_of P.behaviour basis.now.circuit.now in
        IsReadyOn net basis.now alive.now }
    requires side { let net = net_of P.behaviour basis.now.circuit.now in
        side < length (all_sides net.primitives) }
    requires row { IsRowOf (net_of P.behaviour basis.now.circuit.now) side row }
    requires odd { let net = net_of P.behaviour basis.now.circuit.now in
        IsOdd net (family_of alive.now) side (group_in net side row) odd }
    ensures { let net = net_of P.behaviour basis.now.circuit.now in
        IsTrue result ↔ MarksStand net (family_of alive.now) side row }
{
    basis.circuit.known();
    let apart = basis.circuit.apart(side, row);
    if !excuses(odd, apart) {
        return false;
    }
    match apart {
        None => true,
        Some(end) => stands_at(basis, alive, side, row, end),
    }
}

/// Whether a row is one of the two that are noted.
fn notes_row(noted: Group, row: usize) -> bool
    ensures { IsTrue result ↔ ((noted.first ≡ Some row) ⊎ (noted.other ≡ Some row)) }
{
    noted.first == Some(row) || noted.other == Some(row)
}

/// Whether a row with its flag lacks a mark at a joint: it does not have one that is left there.
fn lacks_mark<P: Primitive>(resting: &Resting<'_, P>, live: &RowFlags, row: usize) -> bool
    requires resting { IsResting (net_of P.behaviour resting.now.circuit.now) resting.now }
    requires live { let net = net_of P.behaviour resting.now.circuit.now in
        HasRowPlaces net resting.now live.now }
    requires row { let net = net_of P.behaviour resting.now.circuit.now in
        IsRowOf net resting.now.side row }
    ensures { let net = net_of P.behaviour resting.now.circuit.now in
        IsTrue result ↔ IsLacking net live.now resting.now.side resting.now.joint resting.now.marks
        row }
{
    live.is_set(resting.side, row)
        && !resting.marks.has(mark_at_joint(resting.circuit, resting.side, row, resting.joint))
}

/// Whether a row takes in and gives nothing.
fn flows_nowhere(flow: &Flow) -> bool
    ensures { IsTrue result ↔ ((length flow.now.taking ≡ 0) × (length flow.now.giving ≡ 0)) }
{
    flow.taking.is_empty() && flow.giving.is_empty()
}

/// Whether a side can do without a row where it is apart: it flows nowhere, and it is not noted of
/// its group.
fn is_idle<P: Primitive>(
    circuit: &Circuit<P>,
    board: &Board,
    notes: &List<Group>,
    side: usize,
    row: usize,
) -> bool
    requires side { side < length (all_sides (net_of P.behaviour circuit.now).primitives) }
    requires board { IsBoard (net_of P.behaviour circuit.now) side board.now }
    requires notes { length notes.now ≡ groups_in (net_of P.behaviour circuit.now) side }
    requires row { IsRowOf (net_of P.behaviour circuit.now) side row }
    ensures { IsTrue result ↔ IsIdle (net_of P.behaviour circuit.now) side row notes.now }
{
    circuit.known();
    let flow = board.flows.at(row);
    let noted = *notes.at(circuit.group(side, row));
    flows_nowhere(flow) && !notes_row(noted, row)
}

/// Whether the rows of a list that lack a mark at a joint of their side are all idle.
fn can_spare<P: Primitive>(
    resting: &Resting<'_, P>,
    board: &Board,
    live: &RowFlags,
    notes: &List<Group>,
    list: &[usize],
) -> bool
    requires resting { IsResting (net_of P.behaviour resting.now.circuit.now) resting.now }
    requires board { let net = net_of P.behaviour resting.now.circuit.now in
        IsBoard net resting.now.side board.now }
    requires live { let net = net_of P.behaviour resting.now.circuit.now in
        HasRowPlaces net resting.now live.now }
    requires notes { let net = net_of P.behaviour resting.now.circuit.now in
        length notes.now ≡ groups_in net resting.now.side }
    requires list { let net = net_of P.behaviour resting.now.circuit.now in
        (m : ℕ) → m < length list.now → IsRowOf net resting.now.side (slice_index list.now m) }
    ensures { let net = net_of P.behaviour resting.now.circuit.now in
        IsTrue result ↔ CanSpare net live.now notes.now resting.now.side resting.now.joint
        resting.now.marks list.now }
{
    for index in 0..list.len() {
        let row = list[index];
        if lacks_mark(resting, live, row)
            && !is_idle(resting.circuit, board, notes, resting.side, row)
        {
            return false;
        }
    }
    true
}

/// Clears the flags of the rows of a list that lack a mark at a joint of their side.
fn clear_lacking<P: Primitive>(resting: &Resting<'_, P>, live: &mut RowFlags, list: &[usize])
    requires resting { IsResting (net_of P.behaviour resting.now.circuit.now) resting.now }
    requires live { let net = net_of P.behaviour resting.now.circuit.now in
        HasRowPlaces net resting.now live.old }
    requires list { let net = net_of P.behaviour resting.now.circuit.now in
        (m : ℕ) → m < length list.now → IsRowOf net resting.now.side (slice_index list.now m) }
    ensures alike { AreAlikeTables live.old live.new }
    ensures cleared { let net = net_of P.behaviour resting.now.circuit.now in
        AreCleared net resting.now.side resting.now.joint resting.now.marks list.now
        (length list.now) live.old live.new }
{
    for index in 0..list.len() {
        let row = list[index];
        if lacks_mark(resting, live, row) {
            live.clear(resting.side, row);
        }
    }
}

/// Whether each group of a side of which a row is noted has one of the marks that are left at a
/// joint there.
fn groups_have<P: Primitive>(resting: &Resting<'_, P>, notes: &List<Group>) -> bool
    requires resting { IsResting (net_of P.behaviour resting.now.circuit.now) resting.now }
    requires notes { let net = net_of P.behaviour resting.now.circuit.now in
        length notes.now ≡ groups_in net resting.now.side }
    ensures { let net = net_of P.behaviour resting.now.circuit.now in
        IsTrue result ↔ GroupsHave net notes.now resting.now.side resting.now.joint
        resting.now.marks }
{
    resting.circuit.known();
    let end = end_at(resting.circuit, resting.side, resting.joint);
    for group in 0..notes.len() {
        if notes.at(group).first.is_some()
            && !resting
                .marks
                .has(resting.circuit.common(resting.side, group, end.end))
        {
            return false;
        }
    }
    true
}

/// Whether a side that is at rest can stay so, where a joint there lost values without flow: then
/// the rows with their flags have the marks of values there, but for some that are apart there and
/// that the side can do without, which lose their flags. Else nothing changes.
pub fn can_stay<P: Primitive>(
    basis: &Basis<'_, P>,
    alive: &RowFlags,
    rows: &mut Rows,
    side: usize,
    joint: usize,
) -> bool
    requires ready { let net = net_of P.behaviour basis.now.circuit.now in
        IsReadyOn net basis.now alive.now }
    requires tables { let net = net_of P.behaviour basis.now.circuit.now in
        AreTables net basis.now.items.now rows.old }
    requires side { let net = net_of P.behaviour basis.now.circuit.now in
        side < length (all_sides net.primitives) }
    requires noted { let net = net_of P.behaviour basis.now.circuit.now in
        AreNoted net rows.old.live side rows.old.notes }
    requires joint { IsJointOf (net_of P.behaviour basis.now.circuit.now) side joint }
    ensures yes { let net = net_of P.behaviour basis.now.circuit.now in
        IsTrue result → IsSpared net (family_of alive.now) side joint rows.old rows.new }
    ensures no { result ≡ false → rows.new ≡ rows.old }
    ensures tables { let net = net_of P.behaviour basis.now.circuit.now in
        AreTables net basis.now.items.now rows.new }
{
    basis.circuit.known();
    let board = basis.boards.at(side);
    let marks = marks_left(basis, alive, side, joint);
    let apart = apart_there(basis.circuit, basis.boards, side, joint);
    let notes = rows.notes.at(side);
    let resting = Resting {
        circuit: basis.circuit,
        side,
        joint,
        marks,
    };
    if groups_have(&resting, notes) && can_spare(&resting, board, &rows.live, notes, apart) {
        clear_lacking(&resting, &mut rows.live, apart);
        return true;
    }
    false
}
