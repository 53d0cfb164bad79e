//! Rounds that are planned and made.
ghost use Rattle.std.specs.Prelude.{◌≡◌, ◌+◌, ◌<◌, ◌≤◌, ◌^◌, ◌↔◌, ℕ, IsTrue, IfOk, MatchResult, map};
ghost use Rattle.reo_net_circuit.specs.Offers.{AreAfterRound};
ghost use Rattle.reo_net_base.specs.Step.{stepped};
ghost use Rattle.reo_rounds.specs.Plans.{IsPlan, IsPlanFault, Suits};
ghost use Rattle.reo_net_laws.specs.Knots.{knot_count};
ghost use Rattle.reo_settling.specs.Plannings.{AllServe, AreWeights, sum_below, weight_left};
ghost use Rattle.reo_engine.specs.Engine.{net_now};
ghost use Rattle.reo_flows.specs.stepping.Changes.{AreThoseThatFlowed};
ghost use Rattle.reo_engine.specs.Changes.{OthersStay};
ghost use Rattle.reo_engine.specs.Isolation.{AreFirstInParts};
ghost use Rattle.reo_engine.specs.Settled.{StaySettled};

use crate::changes::mark_flowing;
use crate::engine::Engine;
use crate::planning::suits;
use reo_net_base::Ported;
use reo_rounds::{Done, Exceeds, Plan, plan_with};
use reo_settling::{Planning, first_colouring};
use reo_steps::Steps;
use std::alloc::Global;
use std::sync::ledger::Ledger;

impl<P: Ported> Engine<P> {
    /// Plans the round that comes next: the first colouring of the circuit in the round of the
    /// number `rounds() + 1`. The engine stays as it is, and the plan suits it until it changes. On
    /// each part, as on each closed set of sides, the plan is the first assignment of the part,
    /// whatever the other parts are.
    ///
    /// Parts that are settled within the budget are not searched. It makes at most as many ticks as
    /// the others weigh together, and none where there are no others.
    ///
    /// # Errors
    ///
    /// `Wide` and `Spent` come exactly where a part is over, for the least such part. `NoMemory` is
    /// out of memory.
    pub fn plan<L: Ledger>(
        &self,
        alloc: Global,
        budget: u64,
        steps: &mut Steps<L>,
    ) -> Result<Plan, Exceeds>
        requires { budget < 10 ^ 18 }
        ensures exact { let net = net_now P.behaviour self.now in
            MatchResult result (IsPlan budget net self.now.circuit.ports (self.now.rounds + 1))
            (IsPlanFault budget net) }
        ensures parts { let net = net_now P.behaviour self.now in
            IfOk result (λ plan. AreFirstInParts net (self.now.rounds + 1)
            plan.colouring.rows plan.colouring.items) }
        ensures ticks { let count = knot_count self.now.knots in (weights : ℕ → ℕ)
            → AreWeights (net_now P.behaviour self.now) self.now.knots weights
            → steps.new ≤ steps.old + sum_below count (weight_left self.now.kept budget weights) }
        ensures none { AllServe (knot_count self.now.knots) budget self.now.kept
            → steps.new ≡ steps.old }
    {
        self.circuit.known();
        let planning = Planning {
            circuit: &self.circuit,
            knots: &self.knots,
            ends: &self.ends,
            turn: self.rounds + 1,
            budget,
        };
        let colouring = first_colouring(alloc, &planning, &self.kept, steps)?;
        Ok(plan_with(alloc, &self.circuit, colouring)?)
    }

    /// Whether a plan suits the circuit as it is: its rows and items are a colouring, and its
    /// moves, and what it says of flow and of jams, are theirs. The plan may be any. This takes no
    /// memory.
    pub fn suits(&self, plan: &Plan) -> bool
        ensures { let net = net_now P.behaviour self.now in
            IsTrue result ↔ Suits net self.now.circuit.ports plan.now }
    {
        suits(&self.circuit, plan)
    }

    /// Makes a round that suits: the circuit steps, and one round more was made. The parts that
    /// were settled stay so, but those in which something flowed in the round and those that may
    /// move by the rows that are kept of them. This takes no memory.
    pub fn commit(&mut self, plan: Plan) -> Done
        requires suits { Suits (net_now P.behaviour self.old) self.old.circuit.ports plan }
        requires few { self.old.rounds < 2 ^ 63 }
        ensures circuit { let old = self.old.circuit in
            let rows = plan.colouring.rows in
            let primitives = stepped P.behaviour P.settled old rows plan.colouring.items in
            self.new.circuit ≡ record old { primitives = primitives } }
        ensures offers { let old = self.old.circuit in
            let states = map P.port_state old.primitives in
            let after = map P.port_state self.new.circuit.primitives in
            AreAfterRound
            (net_now P.behaviour self.old) plan.colouring.rows old.ports states after }
        ensures rounds { self.new.rounds ≡ self.old.rounds + 1 }
        ensures changed { let net = net_now P.behaviour self.old in
            AreThoseThatFlowed net plan.colouring.rows self.new.changed }
        ensures others { let old = self.old.circuit.primitives in
            OthersStay self.new.changed old self.new.circuit.primitives }
        ensures settled { let net = net_now P.behaviour self.old in let knots = self.old.knots in
            StaySettled net knots self.new.changed self.old.kept self.new.kept }
        ensures knots { self.new.knots ≡ self.old.knots }
        ensures moves { result.moves ≡ plan.moves }
        ensures idle { result.idle ≡ plan.idle }
        ensures jammed { result.jammed ≡ plan.jammed }
    {
        let Plan {
            colouring,
            moves,
            idle,
            jammed,
        } = plan;
        self.circuit.known();
        self.circuit.known_offers();
        let rows = colouring.rows.as_slice();
        let items = colouring.items.as_slice();
        mark_flowing(&self.circuit, rows, items, &mut self.changed);
        let marks = &self.changed;
        self.kept.unsettle_marked(&self.circuit, &self.knots, marks);
        self.kept.unsettle_moving();
        self.circuit.step(colouring);
        self.circuit.known();
        self.rounds += 1;
        Done {
            moves,
            idle,
            jammed,
        }
    }
}
