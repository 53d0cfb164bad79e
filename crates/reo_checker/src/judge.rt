//! The judgement of rows and of colourings.
ghost use Rattle.std.specs.Prelude.{◌≡◌, ◌↔◌, IsOk, MatchResult, length};
ghost use Rattle.reo_net_base.specs.Net.{net_of};
ghost use Rattle.reo_net_base.specs.Colouring.{RowsFit, IsColouring};
ghost use Rattle.reo_checker.specs.Faults.{IsWrong, AreWrongRows};

use crate::items::item_fault;
use crate::joints::joint_fault;
use crate::rows::row_fault;
use crate::wrong::Wrong;
use reo_net_base::{Colouring, Primitive};
use reo_net_circuit::Circuit;

/// Judges rows of a circuit in its present state: one for each side, each in the table of its
/// side, and each joint matches. The rows may be any. This takes no memory.
///
/// # Errors
///
/// What is wrong first, in this order: `Count` where there is not one row for each side, `Row` with
/// the least primitive that has a row out of its table, `Joint` with the least joint that does not
/// match.
pub fn check_marks<P: Primitive>(circuit: &Circuit<P>, rows: &[u32]) -> Result<(), Wrong>
    ensures wrong { let net = net_of P.behaviour circuit.now in
        MatchResult result (λ _. RowsFit net rows.now) (AreWrongRows net rows.now) }
    ensures exact { IsOk result ↔ RowsFit (net_of P.behaviour circuit.now) rows.now }
{
    if rows.len() != circuit.sides() {
        return Err(Wrong::Count);
    }
    if let Some(primitive) = row_fault(circuit, rows) {
        return Err(Wrong::Row { primitive });
    }
    if let Some(joint) = joint_fault(circuit, rows) {
        return Err(Wrong::Joint { joint });
    }
    Ok(())
}

/// Judges a colouring of a circuit in its present state. The rows and items may be any. This takes
/// no memory.
///
/// # Errors
///
/// What is wrong first, in this order: `Count` where there is not one row for each side or not one
/// optional item for each joint, `Row` and `Joint` as [`check_marks`] has them, and `Item` with the
/// least joint that lacks its item, has one without flow, or has an item that the giver's row does
/// not give or the taker's row does not let in.
pub fn check<P: Primitive>(circuit: &Circuit<P>, colouring: &Colouring) -> Result<(), Wrong>
    ensures wrong { let net = net_of P.behaviour circuit.now in
        let rows = colouring.now.rows in
        let items = colouring.now.items in
        MatchResult result (λ _. IsColouring net rows items) (IsWrong net rows items) }
    ensures exact { let net = net_of P.behaviour circuit.now in
        IsOk result ↔ IsColouring net colouring.now.rows colouring.now.items }
{
    let rows = colouring.rows.as_slice();
    let items = colouring.items.as_slice();
    if items.len() != circuit.joint_count() {
        return Err(Wrong::Count);
    }
    check_marks(circuit, rows)?;
    if let Some(joint) = item_fault(circuit, rows, items) {
        return Err(Wrong::Item { joint });
    }
    Ok(())
}
