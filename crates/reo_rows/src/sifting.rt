//! Sifting the rows of a side: those that do not work lose their flags.
ghost use Rattle.std.specs.Prelude.{◌≡◌, ◌≢◌, ◌==◌, ◌||◌, ◌↔◌, ◌<◌, ◌+◌, ℕ, Bool, true, IsTrue, OnOk, Some, length, slice_index_or, List as Row, []};
ghost use Rattle.reo_net_base.specs.Net.{net_of, all_sides};
ghost use Rattle.reo_net_laws.specs.Ends.{IsRowOf};
ghost use Rattle.reo_joint_values.specs.Works.{RowWorks};
ghost use Rattle.reo_side_tables.specs.Marks.{groups_in, group_in};
ghost use Rattle.reo_rows.specs.declared.groups.Group.{Group as Noted};
ghost use Rattle.reo_rows.specs.Beginning.{nothing_noted};
ghost use Rattle.reo_rows.specs.RowFlags.{flag};
ghost use Rattle.reo_rows.specs.Groups.{IsNotedOf, IsOdd};
ghost use Rattle.reo_rows.specs.Rows.{AreTables, AreLive, IsSifted, OtherSidesStay};
ghost use Rattle.reo_rows.specs.Sets.{family_of, names_of};
ghost use Rattle.reo_rows.specs.Stands.{GroupStands};
ghost use Rattle.reo_rows.specs.Basis.{IsReadyOn};
ghost use Rattle.reo_rows.specs.Sifting.{AreOdds, AreNotedFrom, AreRowsNoted, IsRowSifted};

use crate::basis::Basis;
use crate::flags::RowFlags;
use crate::flowing::Flowing;
use crate::flows::flows_stand;
use crate::groups::{Group, Odd};
use crate::rows::Rows;
use crate::standing::{fit_groups, marks_stand, odd_of};
use reo_net_base::Primitive;
use reo_net_circuit::Circuit;
use reo_values::{List, NoMemory};

/// Where a group of a side has the mark of no value, where this is not 0 exactly if that is
/// nowhere.
fn odd_where<P: Primitive>(
    basis: &Basis<'_, P>,
    alive: &RowFlags,
    side: usize,
    group: usize,
    fit: u8,
) -> Odd
    requires ready { let net = net_of P.behaviour basis.now.circuit.now in
        IsReadyOn net basis.now alive.now }
    requires side { let net = net_of P.behaviour basis.now.circuit.now in
        side < length (all_sides net.primitives) }
    requires group { group < groups_in (net_of P.behaviour basis.now.circuit.now) side }
    requires fit { let net = net_of P.behaviour basis.now.circuit.now in
        (fit ≢ 0) ↔ GroupStands net (family_of alive.now) side group }
    ensures { let net = net_of P.behaviour basis.now.circuit.now in
        IsOdd net (family_of alive.now) side group result }
{
    if fit != 0 {
        Odd::Nowhere
    } else {
        odd_of(basis, alive, side, group)
    }
}

/// Where each group of a side has the mark of no value. `NoMemory` is out of memory.
fn find_odds<P: Primitive>(
    basis: &Basis<'_, P>,
    alive: &RowFlags,
    side: usize,
    fits: &mut Vec<u8>,
    odds: &mut List<Odd>,
) -> Result<(), NoMemory>
    requires ready { let net = net_of P.behaviour basis.now.circuit.now in
        IsReadyOn net basis.now alive.now }
    requires side { let net = net_of P.behaviour basis.now.circuit.now in
        side < length (all_sides net.primitives) }
    ensures { let net = net_of P.behaviour basis.now.circuit.now in
        OnOk result (AreOdds net (family_of alive.now) side odds.new) }
{
    fit_groups(basis, alive, side, fits)?;
    odds.clear();
    for group in 0..basis.circuit.groups(side) {
        let odd = odd_where(basis, alive, side, group, fits[group]);
        odds.push(odd)?;
    }
    Ok(())
}

/// Nothing is noted of the groups of a side.
fn clear_notes(notes: &mut List<Group>)
    ensures one_each { length notes.new ≡ length notes.old }
    ensures nothing { (group : ℕ) (d : Noted) → group < length notes.old
        → slice_index_or notes.new group d ≡ nothing_noted }
{
    for group in 0..notes.len() {
        *notes.at_mut(group) = Group {
            first: None,
            other: None,
        };
    }
}

/// A row of a group, beside what is noted of the group.
fn with_row<P: Primitive>(circuit: &Circuit<P>, side: usize, noted: Group, row: usize) -> Group
    requires side { side < length (all_sides (net_of P.behaviour circuit.now).primitives) }
    requires row { IsRowOf (net_of P.behaviour circuit.now) side row }
    requires first { let net = net_of P.behaviour circuit.now in
        (r : ℕ) → noted.first ≡ Some r → IsRowOf net side r }
    ensures { let net = net_of P.behaviour circuit.now in
        (rows : ℕ → Bool) → IsNotedOf net side rows noted
        → IsNotedOf net side (λ r. rows r || (r == row)) result }
{
    match noted.first {
        None => Group {
            first: Some(row),
            other: None,
        },
        Some(first) => {
            if noted.other.is_none() && circuit.apart(side, row) != circuit.apart(side, first) {
                Group {
                    first: Some(first),
                    other: Some(row),
                }
            } else {
                noted
            }
        }
    }
}

/// Notes a row of a side that works, where the rows behind it are noted.
fn note<P: Primitive>(circuit: &Circuit<P>, notes: &mut List<Group>, side: usize, row: usize)
    requires side { side < length (all_sides (net_of P.behaviour circuit.now).primitives) }
    requires row { IsRowOf (net_of P.behaviour circuit.now) side row }
    requires notes { length notes.old ≡ groups_in (net_of P.behaviour circuit.now) side }
    requires noted { AreRowsNoted (net_of P.behaviour circuit.now) side notes.old }
    ensures one_each { length notes.new ≡ length notes.old }
    ensures noted { let net = net_of P.behaviour circuit.now in
        (live : Row (Row Bool)) → flag live side row ≡ true
        → AreNotedFrom net live side (row + 1) notes.old
        → AreNotedFrom net live side row notes.new }
{
    let group = circuit.group(side, row);
    let noted = *notes.at(group);
    *notes.at_mut(group) = with_row(circuit, side, noted, row);
}

/// Whether a row works, where its group is as said.
fn works<P: Primitive>(
    basis: &Basis<'_, P>,
    alive: &RowFlags,
    side: usize,
    row: usize,
    odd: Odd,
) -> bool
    requires ready { let net = net_of P.behaviour basis.now.circuit.now in
        IsReadyOn net basis.now alive.now }
    requires side { let net = net_of P.behaviour basis.now.circuit.now in
        side < length (all_sides net.primitives) }
    requires row { IsRowOf (net_of P.behaviour basis.now.circuit.now) side row }
    requires odd { let net = net_of P.behaviour basis.now.circuit.now in
        IsOdd net (family_of alive.now) side (group_in net side row) odd }
    ensures { let net = net_of P.behaviour basis.now.circuit.now in
        IsTrue result ↔ RowWorks net (names_of basis.now.items.now) (family_of alive.now) side row }
{
    basis.circuit.known();
    let flowing = Flowing {
        basis,
        alive,
        side,
        row,
        flow: basis.boards.at(side).flows.at(row),
    };
    marks_stand(basis, alive, side, row, odd) && flows_stand(&flowing)
}

/// Clears the flag of a row of a side if it does not work, and else notes it, where the rows behind
/// it are noted.
fn sift_row<P: Primitive>(
    basis: &Basis<'_, P>,
    alive: &RowFlags,
    rows: &mut Rows,
    side: usize,
    row: usize,
)
    requires ready { let net = net_of P.behaviour basis.now.circuit.now in
        IsReadyOn net basis.now alive.now }
    requires tables { let net = net_of P.behaviour basis.now.circuit.now in
        AreTables net basis.now.items.now rows.old }
    requires side { let net = net_of P.behaviour basis.now.circuit.now in
        side < length (all_sides net.primitives) }
    requires row { IsRowOf (net_of P.behaviour basis.now.circuit.now) side row }
    requires odds { let net = net_of P.behaviour basis.now.circuit.now in
        AreOdds net (family_of alive.now) side rows.old.odds }
    requires noted { let net = net_of P.behaviour basis.now.circuit.now in
        AreRowsNoted net side (slice_index_or rows.old.notes side []) }
    ensures { let net = net_of P.behaviour basis.now.circuit.now in
        IsRowSifted net basis.now.items.now (names_of basis.now.items.now) (family_of alive.now)
        side row rows.old rows.new }
{
    if rows.live.is_set(side, row) {
        let odd = *rows.odds.at(basis.circuit.group(side, row));
        if works(basis, alive, side, row, odd) {
            note(basis.circuit, rows.notes.at_mut(side), side, row);
        } else {
            rows.live.clear(side, row);
        }
    }
}

/// Clears the flags of the rows of a side that do not work, and notes the last of each group that
/// do: a search that goes through the ends of a side in order does without the first ones first.
///
/// After `NoMemory`, which is out of memory, nothing has changed.
pub fn sift<P: Primitive>(
    basis: &Basis<'_, P>,
    alive: &RowFlags,
    rows: &mut Rows,
    side: usize,
) -> Result<(), NoMemory>
    requires ready { let net = net_of P.behaviour basis.now.circuit.now in
        IsReadyOn net basis.now alive.now }
    requires tables { let net = net_of P.behaviour basis.now.circuit.now in
        AreTables net basis.now.items.now rows.old }
    requires side { let net = net_of P.behaviour basis.now.circuit.now in
        side < length (all_sides net.primitives) }
    requires works { let net = net_of P.behaviour basis.now.circuit.now in
        AreLive net (names_of basis.now.items.now) (family_of alive.now) side rows.old }
    ensures tables { let net = net_of P.behaviour basis.now.circuit.now in
        AreTables net basis.now.items.now rows.new }
    ensures sifted { let net = net_of P.behaviour basis.now.circuit.now in
        OnOk result (IsSifted net (names_of basis.now.items.now) (family_of alive.now) side
        rows.new) }
    ensures others { OtherSidesStay side rows.old rows.new }
    ensures works { let net = net_of P.behaviour basis.now.circuit.now in
        AreLive net (names_of basis.now.items.now) (family_of alive.now) side rows.new }
    ensures seen { rows.new.seen ≡ rows.old.seen }
{
    find_odds(basis, alive, side, &mut rows.fits, &mut rows.odds)?;
    clear_notes(rows.notes.at_mut(side));
    let count = rows.live.width(side);
    for index in 0..count {
        sift_row(basis, alive, rows, side, count - 1 - index);
    }
    Ok(())
}
