//! Rows that are kept, brought up to date.
ghost use Rattle.std.specs.Prelude.{◌≡◌, ◌≤◌, ◌+◌, ℕ, true, None, IfOk, OnOk, OnErr, MatchResult};
ghost use Rattle.reo_net_laws.specs.Knots.{knot_count};
ghost use Rattle.reo_rounds.specs.Plans.{IsPlanFault};
ghost use Rattle.reo_settling.specs.Plannings.{AllServe, IsKept, IsPlanning, AreWeights, net_in, sum_below, weight_left};
ghost use Rattle.reo_settling.specs.Lookups.{AreLookups};
ghost use Rattle.reo_trace.specs.cells.Cells.{AreShown};
ghost use Rattle.reo_engine.specs.Flows.{AreFlows, MayBeRows};
ghost use Rattle.reo_engine.specs.MadeWithin.{AreRenewed};

use crate::flows::{Flows, flag_shown, show_rest, take_rows};
use reo_net_base::Primitive;
use reo_rounds::Exceeds;
use reo_settling::{Kept, Lookups, Planning};
use reo_steps::Steps;
use reo_values::List;
use std::alloc::Global;
use std::sync::ledger::Ledger;

/// Has all parts settled, for the round of a number, and the joints told that flow in them: those
/// that are not are looked at. It makes at most as many ticks as they weigh together. After a fault
/// the rows are as they were. What is found is written into a list of the rows that are kept, if
/// there is one. The answer is a list of those that were kept before.
///
/// # Errors
///
/// `Wide` and `Spent` come exactly where a part is over, for the least such part. `NoMemory` is out
/// of memory.
fn renew<P: Primitive, L: Ledger>(
    alloc: Global,
    planning: &Planning<'_, P>,
    kept: &mut Kept,
    lookups: &mut Lookups,
    steps: &mut Steps<L>,
    list: &mut Option<List<u32>>,
) -> Result<List<u32>, Exceeds>
    requires planning { IsPlanning (net_in P.behaviour planning.now) planning.now }
    requires turn { 1 ≤ planning.now.turn }
    requires kept { let knots = planning.now.knots.now in
        IsKept (net_in P.behaviour planning.now) knots planning.now.turn kept.old }
    requires lookups { let knots = planning.now.knots.now in
        AreLookups (net_in P.behaviour planning.now) knots kept.old lookups.old }
    requires list { MayBeRows kept.old.rows list.old }
    ensures kept { let knots = planning.now.knots.now in
        IsKept (net_in P.behaviour planning.now) knots planning.now.turn kept.new }
    ensures lookups { let knots = planning.now.knots.now in
        AreLookups (net_in P.behaviour planning.now) knots kept.new lookups.new }
    ensures exact { let count = knot_count planning.now.knots.now in
        let budget = planning.now.budget in
        MatchResult result (λ _. AllServe count budget kept.new)
        (IsPlanFault budget (net_in P.behaviour planning.now)) }
    ensures before { IfOk result (λ before. before ≡ kept.old.rows) }
    ensures list { list.new ≡ None }
    ensures told { OnOk result (lookups.new.told ≡ true) }
    ensures refused { OnErr result (kept.new ≡ kept.old) }
    ensures ticks { let knots = planning.now.knots.now in let budget = planning.now.budget in
        (weights : ℕ → ℕ) → AreWeights (net_in P.behaviour planning.now) knots weights
        → steps.new ≤ steps.old
        + sum_below (knot_count knots) (weight_left kept.old budget weights) }
{
    planning.circuit.known();
    let over = take_rows(alloc, list, kept.rows())?;
    if kept.all_serve(planning.budget) && lookups.is_told() {
        return Ok(over);
    }
    let rows = lookups.find_rows(alloc, planning, kept, steps, over)?;
    let flowing = lookups.flowing();
    Ok(kept.store(
        planning.circuit,
        planning.knots,
        flowing,
        rows,
        planning.budget,
    ))
}

/// Has all parts settled for the round of a number, and the joints told that flow in them, and
/// shows the rows. What a round is made with stays right.
///
/// # Errors
///
/// As for `renew`.
pub(crate) fn renew_marked<P: Primitive, L: Ledger>(
    alloc: Global,
    planning: &Planning<'_, P>,
    kept: &mut Kept,
    lookups: &mut Lookups,
    flows: &mut Flows,
    steps: &mut Steps<L>,
) -> Result<(), Exceeds>
    requires planning { IsPlanning (net_in P.behaviour planning.now) planning.now }
    requires turn { 1 ≤ planning.now.turn }
    requires kept { let knots = planning.now.knots.now in
        IsKept (net_in P.behaviour planning.now) knots planning.now.turn kept.old }
    requires lookups { let knots = planning.now.knots.now in
        AreLookups (net_in P.behaviour planning.now) knots kept.old lookups.old }
    requires flows { let knots = planning.now.knots.now in
        AreFlows (net_in P.behaviour planning.now) knots kept.old flows.old }
    ensures kept { let knots = planning.now.knots.now in
        IsKept (net_in P.behaviour planning.now) knots planning.now.turn kept.new }
    ensures lookups { let knots = planning.now.knots.now in
        AreLookups (net_in P.behaviour planning.now) knots kept.new lookups.new }
    ensures flows { let knots = planning.now.knots.now in
        AreFlows (net_in P.behaviour planning.now) knots kept.new flows.new }
    ensures exact { let net = net_in P.behaviour planning.now in
        let knots = planning.now.knots.now in let budget = planning.now.budget in
        MatchResult result (λ _. AreRenewed budget net knots planning.now.turn kept.new)
        (IsPlanFault budget net) }
    ensures told { OnOk result (lookups.new.told ≡ true) }
    ensures shown { let net = net_in P.behaviour planning.now in
        OnOk result (AreShown net kept.new.rows flows.new.cells) }
    ensures ticks { let knots = planning.now.knots.now in let budget = planning.now.budget in
        (weights : ℕ → ℕ) → AreWeights (net_in P.behaviour planning.now) knots weights
        → steps.new ≤ steps.old
        + sum_below (knot_count knots) (weight_left kept.old budget weights) }
{
    planning.circuit.known();
    let _order = planning.circuit.order();
    flag_shown(kept, flows.shown, &mut flows.shown_parts);
    flows.shown = false;
    let list = &mut flows.rows;
    let mut older = renew(alloc, planning, kept, lookups, steps, list)?;
    let shown = &flows.shown_parts;
    let cells = &mut flows.cells;
    show_rest(
        planning.circuit,
        planning.knots,
        kept.rows(),
        shown,
        cells,
        &mut older,
    );
    flows.rows = Some(older);
    flows.shown = true;
    Ok(())
}
