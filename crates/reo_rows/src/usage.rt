//! Whether values are used at a side.
ghost use Rattle.std.specs.Prelude.{◌≡◌, ◌↔◌, ◌<◌, ◌||◌, ℕ, Bool, IsTrue, true, Some, length, slice_index, slice_index_or, []};
ghost use Rattle.reo_net_base.specs.declared.mark.Mark.{Mark as Said};
ghost use Rattle.reo_net_base.specs.Net.{net_of, all_sides, row_count};
ghost use Rattle.reo_net_laws.specs.Ends.{IsRowOf};
ghost use Rattle.reo_joint_values.specs.Values.{Family};
ghost use Rattle.reo_joint_values.specs.Supported.{IsUsed};
ghost use Rattle.reo_side_tables.specs.Boards.{AreBoards};
ghost use Rattle.reo_side_tables.specs.Marks.{side_in, groups_in, mark_at_joint, IsJointOf};
ghost use Rattle.reo_rows.specs.Groups.{IsNotedOf, AreNoted};
ghost use Rattle.reo_rows.specs.Rows.{AreTables, IsSifted, IsSeen};
ghost use Rattle.reo_rows.specs.Sets.{value_of, names_of};
ghost use Rattle.reo_side_tables.specs.Sets.{marks_has};
ghost use Rattle.reo_rows.specs.Usage.{HasCommonRow, IsCommonMark, IsListedMark, AreUsedMarks};

use crate::basis::Basis;
use crate::flags::RowFlags;
use crate::groups::Group;
use crate::lists::apart_there;
use crate::marks::{FLOWS, mark_seen};
use crate::rows::Rows;
use reo_net_base::Primitive;
use reo_net_circuit::Circuit;
use reo_side_tables::{Marks, end_at, mark_at_joint};

/// Whether some row is as its group at an end, by what is noted of the rows.
fn has_common_row<P: Primitive>(circuit: &Circuit<P>, side: usize, noted: Group, end: usize) -> bool
    requires side { side < length (all_sides (net_of P.behaviour circuit.now).primitives) }
    requires first { let net = net_of P.behaviour circuit.now in
        (row : ℕ) → noted.first ≡ Some row → IsRowOf net side row }
    ensures { let net = net_of P.behaviour circuit.now in
        (rows : ℕ → Bool) → IsNotedOf net side rows noted → IsTrue result
        ↔ HasCommonRow net rows side end }
{
    match noted.first {
        None => false,
        Some(first) => circuit.apart(side, first) != Some(end) || noted.other.is_some(),
    }
}

/// The marks that the groups of a side have at a joint there, where a row with its flag is as its
/// group.
fn common_marks<P: Primitive>(basis: &Basis<'_, P>, rows: &Rows, side: usize, joint: usize) -> Marks
    requires tables { let net = net_of P.behaviour basis.now.circuit.now in
        AreTables net basis.now.items.now rows.now }
    requires side { let net = net_of P.behaviour basis.now.circuit.now in
        side < length (all_sides net.primitives) }
    requires noted { let net = net_of P.behaviour basis.now.circuit.now in
        AreNoted net rows.now.live side rows.now.notes }
    requires joint { IsJointOf (net_of P.behaviour basis.now.circuit.now) side joint }
    ensures { let net = net_of P.behaviour basis.now.circuit.now in
        (m : Said) → (marks_has result m ≡ true) ↔ IsCommonMark net rows.now.live side joint
        (groups_in net side) m }
{
    let circuit = basis.circuit;
    circuit.known();
    let end = end_at(circuit, side, joint);
    let notes = rows.notes.at(side);
    let mut marks = Marks::none();
    for group in 0..circuit.groups(side) {
        if has_common_row(circuit, side, *notes.at(group), end.end) {
            marks = marks.with(circuit.common(side, group, end.end));
        }
    }
    marks
}

/// The marks that the rows of a list with their flags have at a joint of their side.
fn listed_marks<P: Primitive>(
    circuit: &Circuit<P>,
    live: &RowFlags,
    side: usize,
    joint: usize,
    list: &[usize],
) -> Marks
    requires live { side < length live.now }
    requires width { let net = net_of P.behaviour circuit.now in
        length (slice_index_or live.now side []) ≡ row_count (side_in net side) }
    requires joint { IsJointOf (net_of P.behaviour circuit.now) side joint }
    requires list { let net = net_of P.behaviour circuit.now in
        (m : ℕ) → m < length list.now → IsRowOf net side (slice_index list.now m) }
    ensures { let net = net_of P.behaviour circuit.now in
        (m : Said) → (marks_has result m ≡ true) ↔ IsListedMark net live.now side joint list.now
        (length list.now) m }
{
    let mut marks = Marks::none();
    for index in 0..list.len() {
        let row = list[index];
        if live.is_set(side, row) {
            marks = marks.with(mark_at_joint(circuit, side, row, joint));
        }
    }
    marks
}

/// The marks of two sets.
fn both(one: Marks, other: Marks) -> Marks
    ensures { (m : Said) → marks_has result m ≡ (marks_has one m || marks_has other m) }
{
    Marks {
        flow: one.flow || other.flow,
        given: one.given || other.given,
        required: one.required || other.required,
        jam: one.jam || other.jam,
    }
}

/// The marks that the rows of a side with their flags have at a joint there.
pub fn used_marks<P: Primitive>(
    basis: &Basis<'_, P>,
    rows: &Rows,
    side: usize,
    joint: usize,
) -> Marks
    requires boards { AreBoards (net_of P.behaviour basis.now.circuit.now) basis.now.boards.now }
    requires tables { let net = net_of P.behaviour basis.now.circuit.now in
        AreTables net basis.now.items.now rows.now }
    requires side { let net = net_of P.behaviour basis.now.circuit.now in
        side < length (all_sides net.primitives) }
    requires noted { let net = net_of P.behaviour basis.now.circuit.now in
        AreNoted net rows.now.live side rows.now.notes }
    requires joint { IsJointOf (net_of P.behaviour basis.now.circuit.now) side joint }
    ensures { let net = net_of P.behaviour basis.now.circuit.now in
        AreUsedMarks net rows.now.live side joint result }
{
    basis.circuit.known();
    let apart = apart_there(basis.circuit, basis.boards, side, joint);
    let common = common_marks(basis, rows, side, joint);
    let listed = listed_marks(basis.circuit, &rows.live, side, joint, apart);
    both(common, listed)
}

/// Whether a value of a joint, by its place, is used at a side, where these are the marks that the
/// rows of the side have there.
pub fn is_used<P: Primitive>(
    basis: &Basis<'_, P>,
    rows: &Rows,
    side: usize,
    joint: usize,
    code: usize,
    marks: Marks,
) -> bool
    requires tables { let net = net_of P.behaviour basis.now.circuit.now in
        AreTables net basis.now.items.now rows.now }
    requires joint { IsJointOf (net_of P.behaviour basis.now.circuit.now) side joint }
    requires code { code < length (slice_index_or rows.now.seen joint []) }
    requires marks { let net = net_of P.behaviour basis.now.circuit.now in
        AreUsedMarks net rows.now.live side joint marks }
    ensures { let net = net_of P.behaviour basis.now.circuit.now in
        let names = names_of basis.now.items.now in
        (family : Family) → IsSifted net names family side rows.now
        → IsSeen net names family side rows.now → family joint (value_of code) ≡ true
        → IsTrue result ↔ IsUsed net names family side joint (value_of code) }
{
    basis.circuit.known();
    if code < FLOWS {
        marks.has(mark_seen(basis.circuit, side, joint, code))
    } else {
        rows.seen.is_set(joint, code)
    }
}
