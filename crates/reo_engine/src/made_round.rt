//! Rounds that stand, and are made at the cost of what flows.
ghost use Rattle.std.specs.Prelude.{◌≡◌, ◌+◌, ◌<◌, ◌≤◌, ◌^◌, ℕ, true, IfOk, OnOk, MatchResult, map};
ghost use Rattle.reo_net_circuit.specs.Offers.{AreAfterRound};
ghost use Rattle.reo_net_base.specs.Step.{stepped};
ghost use Rattle.reo_trace.specs.Entries.{line_for};
ghost use Rattle.reo_trace.specs.RoundText.{round_text};
ghost use Rattle.reo_rounds.specs.Plans.{IsPlanFault};
ghost use Rattle.reo_net_laws.specs.Knots.{knot_count};
ghost use Rattle.reo_flows.specs.flowing.Flowing.{AreFlowingIn};
ghost use Rattle.reo_settling.specs.Plannings.{AllServe, IsPlanning, AreWeights, net_in, sum_below, weight_left};
ghost use Rattle.reo_flows.specs.stepping.Changes.{AreThoseThatFlowed};
ghost use Rattle.reo_engine.specs.Changes.{OthersStay};
ghost use Rattle.reo_round.specs.Filling.{AreMoving};
ghost use Rattle.reo_round.specs.MadeRound.{HaveFirstItems, IsMadeRound};
ghost use Rattle.reo_engine.specs.Flows.{AreFlows};
ghost use Rattle.reo_engine.specs.Engine.{net_now};
ghost use Rattle.reo_engine.specs.Settled.{StaySettled};
ghost use Rattle.reo_engine.specs.MadeWithin.{IsMadeWithin};

use crate::engine::Engine;
use crate::flows::{Flows, take_sheet};
use crate::renewing::renew_marked;
use reo_flows::step_marked;
use reo_net_base::{Colouring, Move, Ported, Ports, Primitive};
use reo_round::{MadeRound, cleared, make_round};
use reo_rounds::Exceeds;
use reo_settling::{Kept, Planning};
use reo_steps::Steps;
use reo_trace::RoundLine;
use reo_values::{Bytes, List, NoMemory};
use std::alloc::Global;
use std::mem::replace;
use std::sync::ledger::Ledger;

/// What stands for the round of a number, by rows that are kept of all parts. What a round is made
/// with stays right. `NoMemory` is out of memory.
fn make_by<P: Primitive>(
    alloc: Global,
    planning: &Planning<'_, P>,
    kept: &Kept,
    lists: &List<List<usize>>,
    flows: &mut Flows,
) -> Result<MadeRound, NoMemory>
    requires planning { IsPlanning (net_in P.behaviour planning.now) planning.now }
    requires first { let turn = planning.now.turn in
        HaveFirstItems (net_in P.behaviour planning.now) turn kept.now.rows }
    requires lists { let knots = planning.now.knots.now in
        AreFlowingIn
        (net_in P.behaviour planning.now) knots kept.now.rows (λ _. true) lists.now }
    requires moving { let count = knot_count planning.now.knots.now in
        AreMoving count kept.now.moving lists.now }
    requires flows { let knots = planning.now.knots.now in
        AreFlows (net_in P.behaviour planning.now) knots kept.now flows.old }
    ensures is_made { let ports = planning.now.circuit.now.ports in
        let turn = planning.now.turn in
        IfOk result (IsMadeRound (net_in P.behaviour planning.now) ports turn) }
    ensures rows { IfOk result (λ made. made.colouring.rows ≡ kept.now.rows) }
    ensures flows { let knots = planning.now.knots.now in
        AreFlows (net_in P.behaviour planning.now) knots kept.now flows.new }
    ensures cells { flows.new.cells ≡ flows.old.cells }
{
    let joints = planning.circuit.joint_count();
    let primitives = planning.circuit.primitives().len();
    let sheet = take_sheet(alloc, flows, kept.rows(), joints, primitives)?;
    let moving = kept.moving();
    let feeds = &flows.feeds;
    make_round(
        alloc,
        planning.circuit,
        planning.knots,
        planning.ends,
        feeds,
        lists,
        moving,
        planning.turn,
        sheet,
    )
}

impl<P: Ported> Engine<P> {
    /// Brings the rows that are kept up to date for the round that comes next, and answers what
    /// stands for it beside them, with the text of its line, line feed included. Only parts that
    /// are not settled are looked at, only joints that flow are gone through for their items, and
    /// of the text only the cells of these parts are made anew.
    ///
    /// All parts are settled afterwards, and all but what is kept stays as it was. It makes at most
    /// as many ticks as the parts weigh together that are not settled.
    ///
    /// # Errors
    ///
    /// `Wide` and `Spent` come exactly where a part is over, for the least such part. `NoMemory` is
    /// out of memory.
    pub fn make_round<L: Ledger>(
        &mut self,
        alloc: Global,
        ports: &Ports,
        budget: u64,
        steps: &mut Steps<L>,
    ) -> Result<(MadeRound, Bytes), Exceeds>
        requires { budget < 10 ^ 18 }
        ensures exact { let net = net_now P.behaviour self.old in
            let turn = self.old.rounds + 1 in
            MatchResult result (λ made. IsMadeWithin budget net self.old.circuit.ports turn made.0)
            (IsPlanFault budget net) }
        ensures text { let net = net_now P.behaviour self.old in let turn = self.old.rounds + 1 in
            IfOk result (λ made.
            let line = line_for net turn made.0.colouring.rows made.0.line.moves in
            made.1 ≡ round_text ports.now.list line) }
        ensures stays { self.new ≡ record self.old { kept = self.new.kept } }
        ensures same { IfOk result (λ made. made.0.colouring.rows ≡ self.new.kept.rows) }
        ensures settled { let count = knot_count self.new.knots in
            OnOk result (AllServe count budget self.new.kept) }
        ensures ticks { let count = knot_count self.old.knots in (weights : ℕ → ℕ)
            → AreWeights (net_now P.behaviour self.old) self.old.knots weights
            → steps.new ≤ steps.old + sum_below count (weight_left self.old.kept budget weights) }
    {
        self.circuit.known();
        let turn = self.rounds + 1;
        let planning = Planning {
            circuit: &self.circuit,
            knots: &self.knots,
            ends: &self.ends,
            turn,
            budget,
        };
        renew_marked(
            alloc,
            &planning,
            &mut self.kept,
            &mut self.lookups,
            &mut self.flows,
            steps,
        )?;
        let lists = self.lookups.flowing();
        let made_round = make_by(alloc, &planning, &self.kept, lists, &mut self.flows)?;
        let RoundLine { idle, moves, .. } = &made_round.line;
        let over = replace(&mut self.flows.text, Bytes::new(alloc));
        let cells = &self.flows.cells;
        let text = cells.line_text(alloc, over, ports, turn, *idle, moves.as_slice())?;
        Ok((made_round, text))
    }

    /// Hands a text back, any, so that no room is made for that of the round that comes next.
    pub fn hand_back(&mut self, text: Bytes)
        ensures { self.new ≡ self.old }
    {
        self.flows.text = text;
    }

    /// Hands moves back, any, so that no room is made for those of the round that comes next.
    pub fn hand_back_moves(&mut self, moves: List<Move>)
        ensures { self.new ≡ self.old }
    {
        self.flows.moves = moves;
    }
}

impl<P: Ported> Engine<P> {
    /// Makes the round that stands: the circuit steps, and one round more was made. It is the round
    /// that `commit` makes by the same rows and items, but only primitives that keep something and
    /// of which some end flows are touched. Its rows are those that are kept. This takes no memory.
    pub fn finish_round(&mut self, made_round: MadeRound) -> RoundLine
        requires is_made { let net = net_now P.behaviour self.old in
            let turn = self.old.rounds + 1 in
            IsMadeRound net self.old.circuit.ports turn made_round }
        requires same { made_round.colouring.rows ≡ self.old.kept.rows }
        requires few { self.old.rounds < 2 ^ 63 }
        ensures circuit { let old = self.old.circuit in let rows = made_round.colouring.rows in
            let items = made_round.colouring.items in
            let primitives = stepped P.behaviour P.settled old rows items in
            self.new.circuit ≡ record old { primitives = primitives } }
        ensures offers { let old = self.old.circuit in
            let states = map P.port_state old.primitives in
            let after = map P.port_state self.new.circuit.primitives in
            AreAfterRound
            (net_now P.behaviour self.old) made_round.colouring.rows old.ports states after }
        ensures rounds { self.new.rounds ≡ self.old.rounds + 1 }
        ensures changed { let net = net_now P.behaviour self.old in
            AreThoseThatFlowed net made_round.colouring.rows self.new.changed }
        ensures others { let old = self.old.circuit.primitives in
            OthersStay self.new.changed old self.new.circuit.primitives }
        ensures settled { let net = net_now P.behaviour self.old in let knots = self.old.knots in
            StaySettled net knots self.new.changed self.old.kept self.new.kept }
        ensures knots { self.new.knots ≡ self.old.knots }
        ensures line { result ≡ made_round.line }
    {
        let MadeRound {
            colouring,
            flowing,
            marks,
            line,
        } = made_round;
        let Colouring { rows, items } = colouring;
        let mut items = items;
        self.circuit.known();
        self.circuit.known_offers();
        let _order = self.circuit.order();
        let joints = flowing.as_slice();
        let by = rows.as_slice();
        self.goers.note(&marks);
        let going = &self.goers.going;
        self.kept
            .unsettle_between(&self.circuit, &self.knots, going);
        self.kept.unsettle_moving();
        step_marked(&mut self.circuit, &self.ends, by, &mut items, going);
        self.circuit.known();
        self.flows.blank = Some(cleared(items, joints));
        self.flows.rows = Some(rows);
        self.flows.flowing = flowing;
        self.flows.marks = Some(replace(&mut self.changed, marks));
        self.rounds += 1;
        line
    }
}
