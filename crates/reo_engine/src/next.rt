//! Rounds that are planned with the lines that show them.
ghost use Rattle.std.specs.Prelude.{◌≡◌, ◌+◌, ◌<◌, ◌≤◌, ◌^◌, ℕ, OnOk, MatchResult};
ghost use Rattle.reo_rounds.specs.Plans.{IsPlannedRound, IsPlanFault};
ghost use Rattle.reo_net_laws.specs.Knots.{knot_count};
ghost use Rattle.reo_settling.specs.Plannings.{AllServe, AreWeights, sum_below, weight_left};
ghost use Rattle.reo_engine.specs.Engine.{net_now};

use crate::engine::Engine;
use reo_net_base::Ported;
use reo_rounds::{Exceeds, PlannedRound};
use reo_steps::Steps;
use reo_trace::line_of;
use std::alloc::Global;
use std::sync::ledger::Ledger;

impl<P: Ported> Engine<P> {
    /// Plans the round that comes next, and makes the line that shows it. Circuits that are talked
    /// to make their rounds by this call and `commit`, and so do runs that are proved.
    ///
    /// What is found of the parts is kept for rounds to come, as `prepare` keeps it, and all else
    /// stays as it was. It makes at most as many ticks as the parts weigh together that are not
    /// settled.
    ///
    /// # Errors
    ///
    /// `Wide` and `Spent` come exactly where a part is over, for the least such part. `NoMemory` is
    /// out of memory.
    pub fn plan_round<L: Ledger>(
        &mut self,
        alloc: Global,
        budget: u64,
        steps: &mut Steps<L>,
    ) -> Result<PlannedRound, Exceeds>
        requires { budget < 10 ^ 18 }
        ensures exact { let net = net_now P.behaviour self.old in
            let turn = self.old.rounds + 1 in
            MatchResult result (IsPlannedRound budget net self.old.circuit.ports turn)
            (IsPlanFault budget net) }
        ensures stays { self.new ≡ record self.old { kept = self.new.kept } }
        ensures settled { let count = knot_count self.new.knots in
            OnOk result (AllServe count budget self.new.kept) }
        ensures ticks { let count = knot_count self.old.knots in (weights : ℕ → ℕ)
            → AreWeights (net_now P.behaviour self.old) self.old.knots weights
            → steps.new ≤ steps.old + sum_below count (weight_left self.old.kept budget weights) }
    {
        self.known();
        self.prepare(alloc, budget, steps)?;
        let plan = self.plan(alloc, budget, steps)?;
        let turn = self.rounds() + 1;
        let rows = plan.colouring.rows.as_slice();
        let line = line_of(alloc, self.circuit(), turn, plan.moves.as_slice(), rows)?;
        Ok(PlannedRound { plan, line })
    }
}
