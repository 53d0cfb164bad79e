//! Lines that are heard, and pieces.
ghost use Rattle.std.specs.Prelude.{◌≡◌, ◌<◌, ◌≤◌, ◌+◌, ◌^◌, ◌⊎◌, length, All, [], false, IfOk, Err, Option};
ghost use Rattle.reo_io.specs.Causes.{Rose};
ghost use Rattle.reo_rules.specs.literals.Items.{HasFewNames};
ghost use Rattle.reo_net_base.specs.declared.port.Port.{Port as APort};
ghost use Rattle.reo_rounds.specs.Rules.{rules_of};
ghost use Rattle.reo_live.specs.base.Held.{short, joined};
ghost use Rattle.reo_live.specs.base.Hearing.{Judges, cleaned};
ghost use Rattle.reo_live.specs.declared.base.answer.Answer.{Answer as AnAnswer};
ghost use Rattle.reo_live.specs.talk.Replies.{TellsIf};
ghost use Rattle.reo_live.specs.talk.Fed.{Judged, IsFed};
ghost use Rattle.reo_live.specs.talk.Outcomes.{is_over};
ghost use Rattle.reo_live.specs.talk.Talks.{stand_of, live_of, told_by};
ghost use Rattle.reo_live.specs.declared.talk.fault.LiveFault.TheVariants as faults;

use crate::base::hearing_exists;
use crate::talk::answering::respond;
use crate::talk::fault::{Going, LiveFault};
use crate::talk::judging::{judge, too_long};
use crate::talk::lines::{cut_line, without_return};
use crate::talk::open_line::OpenLine;
use crate::talk::reply::Reply;
use reo_engine::Engine;
use reo_io::Sink;
use reo_net_base::{Ported, Ports};
use reo_rounds::known_order;
use reo_values::NoMemory;
use std::alloc::Global;

/// Judges a line that a line feed has ended, behind so many lines. `NoMemory` is out of memory.
fn judge_ended<P: Ported>(
    alloc: Global,
    engine: &mut Engine<P>,
    ports: &Ports,
    budget: u64,
    lines: u64,
    line: &OpenLine,
) -> Result<Option<Reply>, NoMemory>
    requires small { budget < 10 ^ 18 }
    requires few { engine.old.rounds < 2 ^ 63 }
    requires fewer { lines + 1 < 2 ^ 63 }
    requires names { All (λ (p : APort). HasFewNames p.kindred) ports.now.list }
    ensures judges { let r = rules_of P.behaviour P.settled P.port_state P.placed P.withdrawn in
        let stand = stand_of engine.old lines false in
        IfOk result (λ reply. (answer : Option AnAnswer) × TellsIf ports.now.list reply answer
        × Judges r ports.now.list budget stand (cleaned line.now)
        (told_by engine.new (lines + 1) answer)) }
    ensures rounds { engine.new.rounds ≤ engine.old.rounds + 1 }
{
    match line.bytes() {
        None => Ok(Some(too_long(lines + 1))),
        Some(bytes) => judge(alloc, engine, ports, budget, lines, without_return(bytes)),
    }
}

/// Hears the end of a line: these bytes and a line feed.
fn hear_line<P: Ported, S: Sink>(
    alloc: Global,
    engine: &mut Engine<P>,
    ports: &Ports,
    budget: u64,
    lines: &mut u64,
    line: &mut OpenLine,
    bytes: &[u8],
    out: &mut S,
) -> Result<Going, LiveFault>
    requires small { budget < 10 ^ 18 }
    requires few { engine.old.rounds ≤ lines.old }
    requires fewer { lines.old + 1 < 2 ^ 63 }
    requires names { All (λ (p : APort). HasFewNames p.kindred) ports.now.list }
    ensures judged { let r = rules_of P.behaviour P.settled P.port_state P.placed P.withdrawn in
        Judged ports.now.list (S.told out.old) (S.told out.new)
        (Judges r ports.now.list budget (stand_of engine.old lines.old false)
        (cleaned (joined line.old bytes.now)))
        (stand_of engine.new lines.new (is_over result)) result }
    ensures lines { lines.new ≤ lines.old + 1 }
    ensures line { (result ≡ Err faults.NoMemory) ⊎ (line.new ≡ short []) }
    ensures rounds { engine.new.rounds ≤ lines.new }
    ensures cause { result ≡ Err faults.Failed → Rose (S.faults out.old) (S.faults out.new) }
    ensures later { S.faults out.old ≤ S.faults out.new }
    ensures risen { S.faults out.old < S.faults out.new → result ≡ Err faults.Failed }
{
    line.join(bytes)?;
    let before = *lines;
    *lines += 1;
    let reply = judge_ended(alloc, engine, ports, budget, before, line)?;
    line.clear();
    respond(alloc, ports, reply, out)
}

/// Hears a piece, and writes the answers to the lines that it ends.
pub(crate) fn hear<P: Ported, S: Sink>(
    alloc: Global,
    engine: &mut Engine<P>,
    ports: &Ports,
    budget: u64,
    lines: &mut u64,
    line: &mut OpenLine,
    piece: &[u8],
    out: &mut S,
) -> Result<Going, LiveFault>
    requires small { budget < 10 ^ 18 }
    requires few { engine.old.rounds ≤ lines.old }
    requires fewer { lines.old + length piece.now < 2 ^ 63 }
    requires names { All (λ (p : APort). HasFewNames p.kindred) ports.now.list }
    ensures fed { let r = rules_of P.behaviour P.settled P.port_state P.placed P.withdrawn in
        let over = is_over result in
        IsFed ports.now.list (S.told out.old) (S.told out.new) r budget
        (live_of engine.old lines.old false line.old) piece.now
        (live_of engine.new lines.new over line.new) result }
    ensures lines { lines.new ≤ lines.old + length piece.now }
    ensures rounds { engine.new.rounds ≤ lines.new }
    ensures cause { result ≡ Err faults.Failed → Rose (S.faults out.old) (S.faults out.new) }
    ensures later { S.faults out.old ≤ S.faults out.new }
    ensures risen { S.faults out.old < S.faults out.new → result ≡ Err faults.Failed }
{
    hearing_exists::<P>();
    let mut rest = piece;
    'cutting: while let Some(cut) = cut_line(rest) {
        known_order(engine.circuit());
        let going = hear_line(alloc, engine, ports, budget, lines, line, cut.line, out)?;
        match going {
            Going::Ended => return Ok(Going::Ended),
            Going::More => rest = cut.rest,
        }
    }
    known_order(engine.circuit());
    line.join(rest)?;
    Ok(Going::More)
}
