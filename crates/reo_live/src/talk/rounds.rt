//! Rounds that are made by events.
ghost use Rattle.std.specs.Prelude.{◌≡◌, ◌<◌, ◌≤◌, ◌+◌, ◌^◌, ℕ, IfOk, Ok, Some, MatchResult, false};
ghost use Rattle.reo_trace.specs.Entries.{line_for};
ghost use Rattle.reo_trace.specs.RoundText.{round_text};
ghost use Rattle.reo_rounds.specs.Plans.{IsPlanFault};
ghost use Rattle.reo_rounds.specs.Rules.{rules_of};
ghost use Rattle.reo_script.specs.declared.scripts.event.Event.TheVariants.{Round as RoundEvent};
ghost use Rattle.reo_engine.specs.Engine.{net_now};
ghost use Rattle.reo_engine.specs.MadeWithin.{IsMadeWithin};
ghost use Rattle.reo_live.specs.base.Events.{Does};
ghost use Rattle.reo_live.specs.declared.base.answer.Answer.{Answer as AnAnswer};
ghost use Rattle.reo_live.specs.talk.Replies.{Tells};
ghost use Rattle.reo_live.specs.talk.Rounds.{IsStopOf};
ghost use Rattle.reo_live.specs.talk.Talks.{stand_of, told_by};

use crate::base::Answer;
use crate::talk::reply::Reply;
use reo_engine::{Engine, Exceeds, MadeRound, made_rounds_are_rounds};
use reo_net_base::{Ported, Ports};
use reo_steps::Steps;
use reo_values::{Bytes, NoMemory};
use std::alloc::Global;
use std::marker::Brand;
use std::sync::ledger::{Blank, Ledger};

/// What the round that comes next makes, and the text of its line, its steps counted in a book.
fn make_counted<P: Ported, L: Ledger>(
    alloc: Global,
    engine: &mut Engine<P>,
    ports: &Ports,
    budget: u64,
    blank: Blank,
) -> Result<(MadeRound, Bytes), Exceeds>
    requires name { blank.name ≡ L.name }
    requires parts { blank.parts ≡ L.parts }
    requires some_part { 0 < L.parts }
    requires small { budget < 10 ^ 18 }
    ensures exact { let net = net_now P.behaviour engine.old in
        let turn = engine.old.rounds + 1 in
        MatchResult result (λ made. IsMadeWithin budget net engine.old.circuit.ports turn made.0)
        (IsPlanFault budget net) }
    ensures text { let net = net_now P.behaviour engine.old in
        let turn = engine.old.rounds + 1 in
        IfOk result (λ made.
        let line = line_for net turn made.0.colouring.rows made.0.line.moves in
        made.1 ≡ round_text ports.now.list line) }
    ensures stays { engine.new ≡ record engine.old { kept = engine.new.kept } }
    ensures same { IfOk result (λ made. made.0.colouring.rows ≡ engine.new.kept.rows) }
{
    let mut steps = Steps::<L>::new(blank);
    engine.make_round(alloc, ports, budget, &mut steps)
}

/// What the round that comes next makes, and the text of its line.
fn make_next<P: Ported>(
    alloc: Global,
    engine: &mut Engine<P>,
    ports: &Ports,
    budget: u64,
) -> Result<(MadeRound, Bytes), Exceeds>
    requires small { budget < 10 ^ 18 }
    ensures exact { let net = net_now P.behaviour engine.old in
        let turn = engine.old.rounds + 1 in
        MatchResult result (λ made. IsMadeWithin budget net engine.old.circuit.ports turn made.0)
        (IsPlanFault budget net) }
    ensures text { let net = net_now P.behaviour engine.old in
        let turn = engine.old.rounds + 1 in
        IfOk result (λ made.
        let line = line_for net turn made.0.colouring.rows made.0.line.moves in
        made.1 ≡ round_text ports.now.list line) }
    ensures stays { engine.new ≡ record engine.old { kept = engine.new.kept } }
    ensures same { IfOk result (λ made. made.0.colouring.rows ≡ engine.new.kept.rows) }
{
    let blank = Blank::new(1);
    make_counted::<P, Brand>(alloc, engine, ports, budget, blank)
}

/// The answer that says why the round of a number cannot be made.
fn stop(round: u64, budget: u64, fault: Exceeds) -> Result<Answer, NoMemory>
    ensures { IfOk result (IsStopOf round budget fault) }
{
    match fault {
        Exceeds::Wide { knot } => {
            let knot = knot as u64;
            Ok(Answer::Wide { round, knot })
        }
        Exceeds::Spent { knot, weight } => {
            let knot = knot as u64;
            Ok(Answer::Spent {
                round,
                knot,
                weight,
                budget,
            })
        }
        Exceeds::NoMemory => Err(NoMemory),
    }
}

/// Makes the round that comes next, and answers its line; where it cannot be made, why. `NoMemory`
/// is out of memory.
pub(crate) fn answer_round<P: Ported>(
    alloc: Global,
    engine: &mut Engine<P>,
    ports: &Ports,
    budget: u64,
) -> Result<Reply, NoMemory>
    requires small { budget < 10 ^ 18 }
    requires few { engine.old.rounds < 2 ^ 63 }
    ensures does { let r = rules_of P.behaviour P.settled P.port_state P.placed P.withdrawn in
        (lines : ℕ) → IfOk result (λ reply. (answer : AnAnswer) × Tells ports.now.list reply answer
        × Does r budget (stand_of engine.old lines false) (Ok RoundEvent)
        (told_by engine.new (lines + 1) (Some answer))) }
    ensures rounds { engine.new.rounds ≤ engine.old.rounds + 1 }
{
    made_rounds_are_rounds::<P>();
    match make_next(alloc, engine, ports, budget) {
        Ok(made) => {
            let (round, text) = made;
            let _line = engine.finish_round(round);
            Ok(Reply::Made(text))
        }
        Err(fault) => Ok(Reply::Other(stop(engine.rounds() + 1, budget, fault)?)),
    }
}
