//! Lines that are judged.
ghost use Rattle.std.specs.Prelude.{◌≡◌, ◌<◌, ◌≤◌, ◌+◌, ◌^◌, List, Option, length, All, cond, IfOk, Ok, Some, None, false};
ghost use Rattle.reo_rules.specs.literals.Items.{HasFewNames};
ghost use Rattle.reo_net_base.specs.declared.port.Port.{Port as APort};
ghost use Rattle.reo_rounds.specs.Rules.{rules_of};
ghost use Rattle.reo_live.specs.base.Events.{Does};
ghost use Rattle.reo_live.specs.base.Held.{short};
ghost use Rattle.reo_live.specs.base.Hearing.{Judges};
ghost use Rattle.reo_live.specs.declared.base.fault.LineRefusal.TheVariants as wrongs;
ghost use Rattle.reo_live.specs.declared.base.answer.Answer.{Answer as AnAnswer};
ghost use Rattle.reo_live.specs.declared.base.answer.Answer.TheVariants.{Refused};
ghost use Rattle.reo_live.specs.talk.Offers.{IsCauseOf, refusal_if};
ghost use Rattle.reo_live.specs.talk.Replies.{TellsIf};
ghost use Rattle.reo_live.specs.talk.Talks.{stand_of, told_by};

use crate::base::{Answer, LineRefusal};
use crate::talk::offers::{is_pending, make_offer, take_back};
use crate::talk::reply::Reply;
use crate::talk::rounds::answer_round;
use reo_engine::Engine;
use reo_net_base::{Offer, Ported, Ports};
use reo_script::{Event, EventFault, read_event};
use reo_values::NoMemory;
use std::alloc::Global;

/// The refusal of a line that is too long.
pub(crate) fn too_long(line: u64) -> Reply
    ensures { result ≡ Reply.Other (Refused line wrongs.Long) }
{
    let fault = LineRefusal::Long;
    Reply::Other(Answer::Refused { line, fault })
}

/// The refusal of a line, where there is a cause.
fn refusal_if(line: u64, cause: Option<LineRefusal>) -> Option<Reply>
    ensures { (ports : List APort) → TellsIf ports result (refusal_if line cause) }
{
    match cause {
        None => None,
        Some(fault) => Some(Reply::Other(Answer::Refused { line, fault })),
    }
}

/// The cause of a withdraw at whose port nothing was pending.
fn cause_unless(was_pending: bool) -> Option<LineRefusal>
    ensures { result ≡ cond was_pending None (Some wrongs.Nothing) }
{
    if was_pending {
        None
    } else {
        Some(LineRefusal::Nothing)
    }
}

/// The cause of a write whose literal is outside the port's type.
fn cause_outside<P: Ported>(engine: &Engine<P>, port: usize) -> LineRefusal
    ensures { let r = rules_of P.behaviour P.settled P.port_state P.placed P.withdrawn in
        IsCauseOf r engine.now.circuit (EventFault.ItemOutside port) result }
{
    if is_pending(engine, port) {
        LineRefusal::Pending
    } else {
        LineRefusal::Outside
    }
}

/// The cause of a line that is no event for the ports. `NoMemory` is out of memory.
fn cause_of<P: Ported>(engine: &Engine<P>, fault: EventFault) -> Result<LineRefusal, NoMemory>
    ensures { let r = rules_of P.behaviour P.settled P.port_state P.placed P.withdrawn in
        IfOk result (IsCauseOf r engine.now.circuit fault) }
{
    match fault {
        EventFault::Form => Ok(LineRefusal::Form),
        EventFault::NoPort => Ok(LineRefusal::Port),
        EventFault::WrongWay => Ok(LineRefusal::Way),
        EventFault::ItemOutside { port } => Ok(cause_outside(engine, port)),
        EventFault::NoMemory => Err(NoMemory),
    }
}

/// Lets an event happen that stands behind so many lines, and answers its line.
fn happen<P: Ported>(
    alloc: Global,
    engine: &mut Engine<P>,
    ports: &Ports,
    budget: u64,
    lines: u64,
    event: Event,
) -> Result<Option<Reply>, NoMemory>
    requires small { budget < 10 ^ 18 }
    requires few { engine.old.rounds < 2 ^ 63 }
    requires fewer { lines + 1 < 2 ^ 63 }
    ensures does { let r = rules_of P.behaviour P.settled P.port_state P.placed P.withdrawn in
        IfOk result (λ reply. (answer : Option AnAnswer) × TellsIf ports.now.list reply answer
        × Does r budget (stand_of engine.old lines false) (Ok event)
        (told_by engine.new (lines + 1) answer)) }
    ensures rounds { engine.new.rounds ≤ engine.old.rounds + 1 }
{
    match event {
        Event::Nothing => Ok(None),
        Event::Write { port, item } => {
            let cause = make_offer(engine, port, Offer::Write(item));
            Ok(refusal_if(lines + 1, cause))
        }
        Event::Take { port } => {
            let cause = make_offer(engine, port, Offer::Take);
            Ok(refusal_if(lines + 1, cause))
        }
        Event::Withdraw { port } => {
            let cause = cause_unless(take_back(engine, port));
            Ok(refusal_if(lines + 1, cause))
        }
        Event::Round => Ok(Some(answer_round(alloc, engine, ports, budget)?)),
        Event::End => {
            let rounds = engine.rounds();
            Ok(Some(Reply::Other(Answer::Ended { rounds })))
        }
    }
}

/// Judges a line of these bytes that stands behind so many lines. `NoMemory` is out of memory.
pub(crate) fn judge<P: Ported>(
    alloc: Global,
    engine: &mut Engine<P>,
    ports: &Ports,
    budget: u64,
    lines: u64,
    line: &[u8],
) -> Result<Option<Reply>, NoMemory>
    requires small { budget < 10 ^ 18 }
    requires few { engine.old.rounds < 2 ^ 63 }
    requires fewer { lines + 1 < 2 ^ 63 }
    requires short { length line.now ≤ 65536 }
    requires names { All (λ (p : APort). HasFewNames p.kindred) ports.now.list }
    ensures judges { let r = rules_of P.behaviour P.settled P.port_state P.placed P.withdrawn in
        let stand = stand_of engine.old lines false in
        IfOk result (λ reply. (answer : Option AnAnswer) × TellsIf ports.now.list reply answer
        × Judges r ports.now.list budget stand (short line.now)
        (told_by engine.new (lines + 1) answer)) }
    ensures rounds { engine.new.rounds ≤ engine.old.rounds + 1 }
{
    match read_event(alloc, line, ports) {
        Ok(event) => happen(alloc, engine, ports, budget, lines, event),
        Err(fault) => {
            let fault = cause_of(engine, fault)?;
            let line = lines + 1;
            Ok(Some(Reply::Other(Answer::Refused { line, fault })))
        }
    }
}
