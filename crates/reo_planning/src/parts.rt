//! The rows of the first assignment of one part.
ghost use Rattle.std.specs.Prelude.{◌≡◌, ◌≤◌, ◌+◌, ℕ, true, cond, MatchResult, OnOk, length, slice_index};
ghost use Rattle.reo_net_base.specs.Sides.{side_count};
ghost use Rattle.reo_weights.specs.Weights.{IsWeight};
ghost use Rattle.reo_search_tables.specs.SearchTables.{AreReady};
ghost use Rattle.reo_planning.specs.Keeping.{IsKept, serves};
ghost use Rattle.reo_planning.specs.PartOf.{IsFaultAt, IsPartOf, IsPlannedAt, in_part, net_at};

use crate::kept::Kept;
use crate::part_of::PartOf;
use crate::rows::put_rows;
use reo_net_base::Primitive;
use reo_rounds::Exceeds;
use reo_search::first_with;
use reo_search_tables::SearchTables;
use reo_steps::Steps;
use reo_values::List;
use std::alloc::Global;
use std::sync::ledger::Ledger;

/// Searches a part, and writes the rows of its first assignment down. It makes at most as many
/// ticks as the part weighs.
///
/// # Errors
///
/// `Wide` and `Spent` come exactly where the part is over. `NoMemory` is out of memory.
pub fn search_part<P: Primitive, L: Ledger>(
    alloc: Global,
    part: &PartOf<'_, P>,
    tables: &mut SearchTables,
    steps: &mut Steps<L>,
    rows: &mut List<u32>,
) -> Result<(), Exceeds>
    requires part { IsPartOf (net_at P.behaviour part.now) part.now }
    requires tables { let ends = part.now.planning.now.ends.now in
        AreReady (net_at P.behaviour part.now) ends tables.old }
    requires rows { length rows.old ≡ side_count (net_at P.behaviour part.now) }
    ensures exact { let net = net_at P.behaviour part.now in
        MatchResult result (λ _. IsPlannedAt net part.now rows.old rows.new)
        (IsFaultAt net part.now) }
    ensures tables { let ends = part.now.planning.now.ends.now in
        OnOk result (AreReady (net_at P.behaviour part.now) ends tables.new) }
    ensures ticks { let net = net_at P.behaviour part.now in
        (w : ℕ) → IsWeight net (in_part part.now) w → steps.new ≤ steps.old + w }
{
    match first_with(
        alloc,
        part.planning.circuit,
        part.planning.knots,
        &tables.boards,
        part.planning.ends,
        &tables.supply,
        &mut tables.state,
        part.number,
        part.planning.turn,
        part.planning.budget,
        steps,
    ) {
        Ok(found) => {
            put_rows(rows, found.sides.as_slice(), found.rows.as_slice());
            Ok(())
        }
        Err(fault) => Err(fault),
    }
}

/// Writes the rows of the first assignment of a part down: those that are kept stand there already,
/// where they serve, and else the part is searched.
pub(crate) fn plan_part<P: Primitive, L: Ledger>(
    alloc: Global,
    part: &PartOf<'_, P>,
    kept: &Kept,
    tables: &mut SearchTables,
    steps: &mut Steps<L>,
    rows: &mut List<u32>,
) -> Result<(), Exceeds>
    requires part { IsPartOf (net_at P.behaviour part.now) part.now }
    requires kept { let planning = part.now.planning.now in
        IsKept (net_at P.behaviour part.now) planning.knots.now planning.turn kept.now }
    requires tables { let ends = part.now.planning.now.ends.now in
        AreReady (net_at P.behaviour part.now) ends tables.old }
    requires rows { length rows.old ≡ side_count (net_at P.behaviour part.now) }
    requires here { (s : ℕ) → in_part part.now s ≡ true
        → slice_index rows.old s ≡ slice_index kept.now.rows s }
    ensures exact { let net = net_at P.behaviour part.now in
        MatchResult result (λ _. IsPlannedAt net part.now rows.old rows.new)
        (IsFaultAt net part.now) }
    ensures tables { let ends = part.now.planning.now.ends.now in
        OnOk result (AreReady (net_at P.behaviour part.now) ends tables.new) }
    ensures ticks { let planning = part.now.planning.now in
        (w : ℕ) → IsWeight (net_at P.behaviour part.now) (in_part part.now) w
        → steps.new ≤ steps.old + cond (serves kept.now planning.budget part.now.number) 0 w }
    ensures none { serves kept.now part.now.planning.now.budget part.now.number ≡ true
        → steps.new ≡ steps.old }
{
    if kept.serves(part.number, part.planning.budget) {
        return Ok(());
    }
    search_part(alloc, part, tables, steps, rows)
}
