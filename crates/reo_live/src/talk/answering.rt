//! Answers that are written.
ghost use Rattle.std.specs.Prelude.{◌≡◌, ◌≢◌, ◌<◌, ◌≤◌, List, Option, IfOk, OnOk, IsErrOf, Err};
ghost use Rattle.reo_io.specs.Causes.{Rose};
ghost use Rattle.reo_io.specs.Sinks.{Appended, TookPart};
ghost use Rattle.reo_net_base.specs.declared.port.Port.{Port as APort};
ghost use Rattle.reo_live.specs.base.Answers.{answer_text};
ghost use Rattle.reo_live.specs.declared.base.answer.Answer.{Answer as AnAnswer};
ghost use Rattle.reo_live.specs.talk.Replies.{Tells, TellsIf};
ghost use Rattle.reo_live.specs.talk.Fed.{Responds};
ghost use Rattle.reo_live.specs.talk.Outcomes.{outcome_of};
ghost use Rattle.reo_live.specs.declared.talk.fault.LiveFault.TheVariants as faults;

use crate::base::Answer;
use crate::talk::fault::{Going, LiveFault};
use crate::talk::reply::Reply;
use crate::talk::texts::answer_text;
use reo_io::{Sink, put_all};
use reo_net_base::Ports;
use reo_trace::WriteFault;
use reo_values::{Bytes, NoMemory};
use std::alloc::Global;

/// The text of what is told, line feed included. `NoMemory` is out of memory.
fn text_of(alloc: Global, ports: &Ports, reply: Reply) -> Result<Bytes, NoMemory>
    ensures { (answer : AnAnswer) → Tells ports.now.list reply answer
        → IfOk result (λ text. text ≡ answer_text ports.now.list answer) }
{
    match reply {
        Reply::Made(text) => Ok(text),
        Reply::Other(answer) => answer_text(alloc, ports, &answer),
    }
}

/// Writes what is told. The whole line is made first, and then put.
fn write_reply<S: Sink>(
    alloc: Global,
    ports: &Ports,
    reply: Reply,
    out: &mut S,
) -> Result<(), WriteFault>
    ensures ok { (answer : AnAnswer) → Tells ports.now.list reply answer
        → OnOk result (Appended (S.told out.old) (S.told out.new)
        (answer_text ports.now.list answer)) }
    ensures failed { (answer : AnAnswer) → Tells ports.now.list reply answer
        → IsErrOf result WriteFault.Failed
        → TookPart (S.told out.old) (S.told out.new) (answer_text ports.now.list answer) }
    ensures cause { IsErrOf result WriteFault.Failed → Rose (S.faults out.old) (S.faults out.new) }
    ensures memory { IsErrOf result WriteFault.NoMemory → out.new ≡ out.old }
    ensures count { S.faults out.old ≤ S.faults out.new }
    ensures risen { S.faults out.old < S.faults out.new → IsErrOf result WriteFault.Failed }
{
    let text = text_of(alloc, ports, reply)?;
    put_all(text.as_slice(), out)?;
    Ok(())
}

/// What is returned behind what was told.
fn outcome_of(reply: &Reply) -> Result<Going, LiveFault>
    ensures outcome { (ports : List APort) (answer : AnAnswer) → Tells ports reply.now answer
        → result ≡ outcome_of answer }
    ensures no_fault { result ≢ Err faults.Failed }
{
    match reply {
        Reply::Made(_) => Ok(Going::More),
        Reply::Other(Answer::Refused { .. }) => Ok(Going::More),
        Reply::Other(Answer::Made { .. }) => Ok(Going::More),
        Reply::Other(Answer::Ended { .. }) => Ok(Going::Ended),
        Reply::Other(Answer::Wide { knot, .. }) => Err(LiveFault::Wide { knot: *knot }),
        Reply::Other(Answer::Spent { knot, weight, .. }) => {
            let weight = *weight;
            Err(LiveFault::Spent {
                knot: *knot,
                weight,
            })
        }
    }
}

/// Writes what is told of a line, where it has an answer.
pub(crate) fn respond<S: Sink>(
    alloc: Global,
    ports: &Ports,
    reply: Option<Reply>,
    out: &mut S,
) -> Result<Going, LiveFault>
    ensures responds { (answer : Option AnAnswer) → TellsIf ports.now.list reply answer
        → Responds ports.now.list (S.told out.old) (S.told out.new) answer result }
    ensures cause { result ≡ Err faults.Failed → Rose (S.faults out.old) (S.faults out.new) }
    ensures later { S.faults out.old ≤ S.faults out.new }
    ensures risen { S.faults out.old < S.faults out.new → result ≡ Err faults.Failed }
{
    let Some(reply) = reply else {
        return Ok(Going::More);
    };
    let outcome = outcome_of(&reply);
    match write_reply(alloc, ports, reply, out) {
        Ok(()) => outcome,
        Err(WriteFault::Failed) => Err(LiveFault::Failed),
        Err(WriteFault::NoMemory) => Err(LiveFault::NoMemory),
    }
}
