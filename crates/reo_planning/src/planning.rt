//! The first colouring, part by part.
ghost use Rattle.std.specs.Prelude.{◌≡◌, ◌≤◌, ◌+◌, ℕ, IfOk, MatchResult, OnOk};
ghost use Rattle.reo_net_base.specs.Colouring.{RowsFit};
ghost use Rattle.reo_net_laws.specs.Knots.{knot_count};
ghost use Rattle.reo_rounds.specs.Plans.{IsPlanFault};
ghost use Rattle.reo_search_tables.specs.SearchTables.{AreReady};
ghost use Rattle.reo_planning.specs.Keeping.{AllServe, IsKept};
ghost use Rattle.reo_planning.specs.PartOf.{ArePlannedIn, IsPlanning, net_in};
ghost use Rattle.reo_planning.specs.Planned.{IsFirstBy, AreWeights, sum_below, weight_left};

use crate::kept::Kept;
use crate::part_of::{PartOf, Planning};
use crate::parts::plan_part;
use crate::rows::copied;
use crate::tables::tables_of;
use reo_net::fill_with;
use reo_net_base::{Colouring, Primitive};
use reo_rounds::Exceeds;
use reo_search_tables::SearchTables;
use reo_steps::Steps;
use reo_values::List;
use std::alloc::Global;
use std::sync::ledger::Ledger;

/// The rows of the first colouring of what is planned, by tables that are ready.
fn rows_with<P: Primitive, L: Ledger>(
    alloc: Global,
    planning: &Planning<'_, P>,
    kept: &Kept,
    tables: &mut SearchTables,
    steps: &mut Steps<L>,
) -> Result<List<u32>, Exceeds>
    requires planning { IsPlanning (net_in P.behaviour planning.now) planning.now }
    requires tables { let ends = planning.now.ends.now in
        AreReady (net_in P.behaviour planning.now) ends tables.old }
    requires kept { let knots = planning.now.knots.now in
        IsKept (net_in P.behaviour planning.now) knots planning.now.turn kept.now }
    ensures exact { let net = net_in P.behaviour planning.now in
        MatchResult result (ArePlannedIn net planning.now)
        (IsPlanFault planning.now.budget net) }
    ensures fit { IfOk result (RowsFit (net_in P.behaviour planning.now)) }
    ensures tables { let ends = planning.now.ends.now in
        OnOk result (AreReady (net_in P.behaviour planning.now) ends tables.new) }
    ensures ticks { let knots = planning.now.knots.now in let budget = planning.now.budget in
        (weights : ℕ → ℕ) → AreWeights (net_in P.behaviour planning.now) knots weights
        → steps.new ≤ steps.old
        + sum_below (knot_count knots) (weight_left kept.now budget weights) }
{
    planning.circuit.known();
    let mut rows = copied(alloc, kept.rows.as_slice())?;
    for knot in 0..planning.knots.count() {
        let part = PartOf {
            planning: &*planning,
            number: knot,
        };
        plan_part(alloc, &part, kept, tables, steps, &mut rows)?;
    }
    Ok(rows)
}

/// The rows of the first colouring of what is planned, where no part is over. They are those that
/// are kept, where these serve; only other parts are searched, by tables that are made for it. It
/// makes at most as many ticks as the weights of those say together.
fn rows_by_parts<P: Primitive, L: Ledger>(
    alloc: Global,
    planning: &Planning<'_, P>,
    kept: &Kept,
    steps: &mut Steps<L>,
) -> Result<List<u32>, Exceeds>
    requires planning { IsPlanning (net_in P.behaviour planning.now) planning.now }
    requires kept { let knots = planning.now.knots.now in
        IsKept (net_in P.behaviour planning.now) knots planning.now.turn kept.now }
    ensures exact { let net = net_in P.behaviour planning.now in
        MatchResult result (ArePlannedIn net planning.now)
        (IsPlanFault planning.now.budget net) }
    ensures fit { IfOk result (RowsFit (net_in P.behaviour planning.now)) }
    ensures ticks { let knots = planning.now.knots.now in let budget = planning.now.budget in
        (weights : ℕ → ℕ) → AreWeights (net_in P.behaviour planning.now) knots weights
        → steps.new ≤ steps.old
        + sum_below (knot_count knots) (weight_left kept.now budget weights) }
    ensures none { let count = knot_count planning.now.knots.now in
        AllServe count planning.now.budget kept.now → steps.new ≡ steps.old }
{
    planning.circuit.known();
    if kept.all_serve(planning.budget) {
        return Ok(copied(alloc, kept.rows.as_slice())?);
    }
    let mut tables = tables_of(alloc, planning.circuit, planning.ends)?;
    rows_with(alloc, planning, kept, &mut tables, steps)
}

/// The first colouring of what is planned, where no part is over. Its rows are those that are kept,
/// where these serve; only other parts are searched, by tables that are made for it. It makes at
/// most as many ticks as the weights of those say together.
///
/// # Errors
///
/// `Wide` and `Spent` come exactly where a part is over, for the least such part. `NoMemory` is out
/// of memory.
pub fn first_colouring<P: Primitive, L: Ledger>(
    alloc: Global,
    planning: &Planning<'_, P>,
    kept: &Kept,
    steps: &mut Steps<L>,
) -> Result<Colouring, Exceeds>
    requires planning { IsPlanning (net_in P.behaviour planning.now) planning.now }
    requires kept { let knots = planning.now.knots.now in
        IsKept (net_in P.behaviour planning.now) knots planning.now.turn kept.now }
    ensures exact { let net = net_in P.behaviour planning.now in
        MatchResult result (IsFirstBy planning.now.budget net planning.now.turn)
        (IsPlanFault planning.now.budget net) }
    ensures ticks { let knots = planning.now.knots.now in let budget = planning.now.budget in
        (weights : ℕ → ℕ) → AreWeights (net_in P.behaviour planning.now) knots weights
        → steps.new ≤ steps.old
        + sum_below (knot_count knots) (weight_left kept.now budget weights) }
    ensures none { let count = knot_count planning.now.knots.now in
        AllServe count planning.now.budget kept.now → steps.new ≡ steps.old }
{
    planning.circuit.known();
    let rows = rows_by_parts(alloc, planning, kept, steps)?;
    Ok(fill_with(alloc, planning.circuit, planning.ends, rows)?)
}
