//! Looking at parts ahead of a plan.
ghost use Rattle.std.specs.Prelude.{◌≡◌, ◌+◌, ◌<◌, ◌≤◌, ◌^◌, ℕ, OnOk, OnErr, MatchResult};
ghost use Rattle.reo_weights.specs.Over.{Cause, IsOver};
ghost use Rattle.reo_rounds.specs.Plans.{IsPlanFault};
ghost use Rattle.reo_net_laws.specs.Knots.{knot_count};
ghost use Rattle.reo_settling.specs.Plannings.{AllServe, AreWeights, sum_below, weight_left};
ghost use Rattle.reo_engine.specs.Engine.{net_now};

use crate::engine::Engine;
use crate::flows::{rewritten, take_rows};
use reo_net_base::Ported;
use reo_rounds::Exceeds;
use reo_settling::Planning;
use reo_steps::Steps;
use std::alloc::Global;
use std::sync::ledger::Ledger;

impl<P: Ported> Engine<P> {
    /// Looks at the parts that are not settled, and keeps their rows. Afterwards all parts are
    /// settled, and `plan` with this or a greater budget makes no tick until something changes.
    /// Where they are settled already nothing changes, and it takes no memory.
    ///
    /// Rows that are remembered by the state of a part serve where it comes back to this state. The
    /// tables of the search are made anew only where a part is searched, for the parts that
    /// changed; the first time, and after a fault, they are made for the whole circuit.
    ///
    /// It makes at most as many ticks as `plan` would. All but what is kept stays as it was, and
    /// after a fault the engine is as it was.
    ///
    /// # Errors
    ///
    /// `Wide` and `Spent` come exactly where a part is over, for the least such part. `NoMemory` is
    /// out of memory.
    pub fn prepare<L: Ledger>(
        &mut self,
        alloc: Global,
        budget: u64,
        steps: &mut Steps<L>,
    ) -> Result<(), Exceeds>
        requires { budget < 10 ^ 18 }
        ensures exact { let net = net_now P.behaviour self.old in
            MatchResult result (λ _. (cause : Cause) → IsOver budget net cause → ⊥)
            (IsPlanFault budget net) }
        ensures settled { let count = knot_count self.new.knots in
            OnOk result (AllServe count budget self.new.kept) }
        ensures stays { self.new ≡ record self.old { kept = self.new.kept } }
        ensures refused { OnErr result (self.new ≡ self.old) }
        ensures ticks { let count = knot_count self.old.knots in (weights : ℕ → ℕ)
            → AreWeights (net_now P.behaviour self.old) self.old.knots weights
            → steps.new ≤ steps.old + sum_below count (weight_left self.old.kept budget weights) }
        ensures none { AllServe (knot_count self.old.knots) budget self.old.kept
            → (self.new ≡ self.old) × (steps.new ≡ steps.old) }
    {
        self.circuit.known();
        if self.kept.all_serve(budget) {
            return Ok(());
        }
        let over = take_rows(alloc, &mut self.flows.rows, self.kept.rows())?;
        let planning = Planning {
            circuit: &self.circuit,
            knots: &self.knots,
            ends: &self.ends,
            turn: self.rounds + 1,
            budget,
        };
        let rows = self
            .lookups
            .find_rows(alloc, &planning, &self.kept, steps, over)?;
        self.flows.shown = false;
        let flowing = self.lookups.flowing();
        let list = self
            .kept
            .store(&self.circuit, &self.knots, flowing, rows, budget);
        self.flows.rows = rewritten(list, self.kept.rows());
        Ok(())
    }
}
