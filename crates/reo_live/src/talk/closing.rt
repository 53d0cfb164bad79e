//! The end of the input.
ghost use Rattle.std.specs.Prelude.{◌≡◌, ◌<◌, ◌≤◌, ◌+◌, ◌^◌, All, false, IfOk, Err, Option};
ghost use Rattle.reo_io.specs.Causes.{Rose};
ghost use Rattle.reo_rules.specs.literals.Items.{HasFewNames};
ghost use Rattle.reo_net_base.specs.declared.port.Port.{Port as APort};
ghost use Rattle.reo_rounds.specs.Rules.{rules_of};
ghost use Rattle.reo_live.specs.base.Hearing.{Judges};
ghost use Rattle.reo_live.specs.declared.base.answer.Answer.{Answer as AnAnswer};
ghost use Rattle.reo_live.specs.talk.Replies.{TellsIf};
ghost use Rattle.reo_live.specs.talk.Fed.{IsClosed, IsFinished, Judged};
ghost use Rattle.reo_live.specs.talk.Outcomes.{is_over};
ghost use Rattle.reo_live.specs.talk.Talks.{stand_of, live_of, told_by};
ghost use Rattle.reo_live.specs.declared.talk.fault.LiveFault.TheVariants as faults;

use crate::base::{Answer, ending_exists};
use crate::talk::answering::respond;
use crate::talk::fault::{Going, LiveFault};
use crate::talk::judging::{judge, too_long};
use crate::talk::open_line::OpenLine;
use crate::talk::reply::Reply;
use reo_engine::Engine;
use reo_io::Sink;
use reo_net_base::{Ported, Ports};
use reo_rounds::known_order;
use reo_values::NoMemory;
use std::alloc::Global;

/// Judges a line that has not ended, behind so many lines. `NoMemory` is out of memory.
fn judge_last<P: Ported>(
    alloc: Global,
    engine: &mut Engine<P>,
    ports: &Ports,
    budget: u64,
    lines: u64,
    line: &OpenLine,
) -> Result<Option<Reply>, NoMemory>
    requires small { budget < 10 ^ 18 }
    requires few { engine.old.rounds < 2 ^ 63 }
    requires fewer { lines + 1 < 2 ^ 63 }
    requires names { All (λ (p : APort). HasFewNames p.kindred) ports.now.list }
    ensures judges { let r = rules_of P.behaviour P.settled P.port_state P.placed P.withdrawn in
        let stand = stand_of engine.old lines false in
        IfOk result (λ reply. (answer : Option AnAnswer) × TellsIf ports.now.list reply answer
        × Judges r ports.now.list budget stand line.now
        (told_by engine.new (lines + 1) answer)) }
    ensures rounds { engine.new.rounds ≤ engine.old.rounds + 1 }
{
    match line.bytes() {
        None => Ok(Some(too_long(lines + 1))),
        Some(bytes) => judge(alloc, engine, ports, budget, lines, bytes),
    }
}

/// Hears the end of a line that has no line feed.
fn hear_last<P: Ported, S: Sink>(
    alloc: Global,
    engine: &mut Engine<P>,
    ports: &Ports,
    budget: u64,
    lines: u64,
    line: &OpenLine,
    out: &mut S,
) -> Result<Going, LiveFault>
    requires small { budget < 10 ^ 18 }
    requires few { engine.old.rounds < 2 ^ 63 }
    requires fewer { lines + 1 < 2 ^ 63 }
    requires names { All (λ (p : APort). HasFewNames p.kindred) ports.now.list }
    ensures judged { let r = rules_of P.behaviour P.settled P.port_state P.placed P.withdrawn in
        Judged ports.now.list (S.told out.old) (S.told out.new)
        (Judges r ports.now.list budget (stand_of engine.old lines false) line.now)
        (stand_of engine.new (lines + 1) (is_over result)) result }
    ensures rounds { engine.new.rounds ≤ engine.old.rounds + 1 }
    ensures cause { result ≡ Err faults.Failed → Rose (S.faults out.old) (S.faults out.new) }
    ensures later { S.faults out.old ≤ S.faults out.new }
    ensures risen { S.faults out.old < S.faults out.new → result ≡ Err faults.Failed }
{
    let reply = judge_last(alloc, engine, ports, budget, lines, line)?;
    respond(alloc, ports, reply, out)
}

/// Writes that nothing further is judged, after so many rounds.
fn close<S: Sink>(alloc: Global, ports: &Ports, rounds: u64, out: &mut S) -> Result<(), LiveFault>
    ensures closed { IsClosed ports.now.list (S.told out.old) (S.told out.new) rounds result }
    ensures cause { result ≡ Err faults.Failed → Rose (S.faults out.old) (S.faults out.new) }
    ensures later { S.faults out.old ≤ S.faults out.new }
    ensures risen { S.faults out.old < S.faults out.new → result ≡ Err faults.Failed }
{
    let reply = Some(Reply::Other(Answer::Ended { rounds }));
    match respond(alloc, ports, reply, out) {
        Ok(_) => Ok(()),
        Err(fault) => Err(fault),
    }
}

/// Hears the end of the input behind so many lines, and writes that nothing further is judged.
pub(crate) fn hear_end<P: Ported, S: Sink>(
    alloc: Global,
    engine: &mut Engine<P>,
    ports: &Ports,
    budget: u64,
    lines: u64,
    line: &OpenLine,
    out: &mut S,
) -> Result<(), LiveFault>
    requires small { budget < 10 ^ 18 }
    requires few { engine.old.rounds < 2 ^ 63 }
    requires fewer { lines + 1 < 2 ^ 63 }
    requires names { All (λ (p : APort). HasFewNames p.kindred) ports.now.list }
    ensures finished { let r = rules_of P.behaviour P.settled P.port_state P.placed P.withdrawn in
        IsFinished ports.now.list (S.told out.old) (S.told out.new) r budget
        (live_of engine.old lines false line.now) result }
    ensures rounds { engine.new.rounds ≤ engine.old.rounds + 1 }
    ensures cause { result ≡ Err faults.Failed → Rose (S.faults out.old) (S.faults out.new) }
    ensures later { S.faults out.old ≤ S.faults out.new }
    ensures risen { S.faults out.old < S.faults out.new → result ≡ Err faults.Failed }
{
    ending_exists::<P>();
    known_order(engine.circuit());
    if line.is_empty() {
        return close(alloc, ports, engine.rounds(), out);
    }
    let going = hear_last(alloc, engine, ports, budget, lines, line, out)?;
    match going {
        Going::Ended => Ok(()),
        Going::More => close(alloc, ports, engine.rounds(), out),
    }
}
