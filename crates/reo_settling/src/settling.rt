//! The rows of all parts.
ghost use Rattle.std.specs.Prelude.{◌≡◌, ◌≤◌, ◌+◌, ℕ, true, IfOk, OnErr, OnOk, MatchResult, length};
ghost use Rattle.reo_net_base.specs.Colouring.{RowsFit};
ghost use Rattle.reo_net_laws.specs.Knots.{knot_count};
ghost use Rattle.reo_flows.specs.flowing.Flowing.{AreFlowingIn};
ghost use Rattle.reo_rounds.specs.Plans.{IsPlanFault};
ghost use Rattle.reo_part_plans.specs.Plannings.{ArePlannedIn, Kept as KeptRows, IsKept, IsPlanning, AreWeights, net_in, sum_below, weight_left};
ghost use Rattle.reo_settling.specs.Lookups.{AreLookups, IsForgotten, IsNextToSettle};

use crate::lookups::Lookups;
use crate::standing::Standing;
use reo_net_base::Primitive;
use reo_part_plans::{Kept, PartOf, Planning};
use reo_rounds::Exceeds;
use reo_steps::Steps;
use reo_values::List;
use std::alloc::Global;
use std::mem::replace;
use std::sync::ledger::Ledger;

/// The next part from `from` on of which rows or joints are to be found, or the number of parts if
/// there is none: where joints are told it is one of which the rows that are kept do not serve.
fn next_to_settle(kept: &Kept, budget: u64, told: bool, from: usize) -> usize
    requires { from ≤ length kept.now.settled }
    ensures { IsNextToSettle budget told from kept.now result }
{
    if told {
        kept.next_unserved(budget, from)
    } else {
        from
    }
}

impl Lookups {
    /// Of parts that are not settled the tables are not fresh.
    fn forget(&mut self, kept: &Kept)
        requires { length self.old.fresh ≡ length kept.now.settled }
        ensures { IsForgotten kept.now self.old self.new }
    {
        self.fresh.keep_where(kept.settled());
    }

    /// The rows of the first colouring of what is planned, where no part is over, and for each part
    /// its joints that flow. They are written into a list of the rows that are kept, which stand
    /// where they serve; of other parts they are remembered, or searched. It makes at most as many
    /// ticks as the weights of those say together.
    ///
    /// # Errors
    ///
    /// `Wide` and `Spent` come exactly where a part is over, for the least such part. `NoMemory` is
    /// out of memory.
    pub fn find_rows<P: Primitive, L: Ledger>(
        &mut self,
        alloc: Global,
        planning: &Planning<'_, P>,
        kept: &Kept,
        steps: &mut Steps<L>,
        list: List<u32>,
    ) -> Result<List<u32>, Exceeds>
        requires planning { IsPlanning (net_in P.behaviour planning.now) planning.now }
        requires turn { 1 ≤ planning.now.turn }
        requires kept { let knots = planning.now.knots.now in
            IsKept (net_in P.behaviour planning.now) knots planning.now.turn kept.now }
        requires list { list ≡ kept.now.rows }
        requires lookups { let knots = planning.now.knots.now in
            AreLookups (net_in P.behaviour planning.now) knots kept.now self.old }
        ensures lookups { let net = net_in P.behaviour planning.now in
            let knots = planning.now.knots.now in
            IfOk result (λ rows. (later : KeptRows) → later.rows ≡ rows
            → AreLookups net knots later self.new) }
        ensures refused { let net = net_in P.behaviour planning.now in
            let knots = planning.now.knots.now in
            OnErr result ((later : KeptRows) → AreLookups net knots later self.new) }
        ensures told { OnOk result (self.new.told ≡ true) }
        ensures flowing { let net = net_in P.behaviour planning.now in
            let knots = planning.now.knots.now in
            IfOk result (λ rows. AreFlowingIn net knots rows (λ _. true) self.new.flowing) }
        ensures exact { let net = net_in P.behaviour planning.now in
            MatchResult result (ArePlannedIn net planning.now)
            (IsPlanFault planning.now.budget net) }
        ensures fit { IfOk result (RowsFit (net_in P.behaviour planning.now)) }
        ensures ticks { let knots = planning.now.knots.now in
            let budget = planning.now.budget in
            (weights : ℕ → ℕ) → AreWeights (net_in P.behaviour planning.now) knots weights
            → steps.new ≤ steps.old
            + sum_below (knot_count knots) (weight_left kept.now budget weights) }
    {
        planning.circuit.known();
        let told = replace(&mut self.told, false);
        self.forget(kept);
        let mut rows = list;
        let mut part = next_to_settle(kept, planning.budget, told, 0);
        while part < planning.knots.count() {
            let here = PartOf {
                planning: &*planning,
                number: part,
            };
            let standing = Standing { kept: &*kept, told };
            self.find_part(alloc, &here, &standing, steps, &mut rows)?;
            part = next_to_settle(kept, planning.budget, told, part + 1);
        }
        self.told = true;
        Ok(rows)
    }
}
