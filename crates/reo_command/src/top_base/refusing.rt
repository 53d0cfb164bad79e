//! The line of what stops a command before its own work.
ghost use Rattle.std.specs.Prelude.{◌≡◌, IfOk};
ghost use Rattle.reo_command.specs.top_base.Cases.{IsFair, TellsFaults};
ghost use Rattle.reo_command.specs.States.{sink_change};
ghost use Rattle.reo_command.specs.top_base.Stopped.{IsRefusedAs};
ghost use Rattle.reo_command.specs.Stops.{stop_text};
ghost use Rattle.reo_command.specs.declared.stop.Stop.TheVariants as stops;

use crate::top_base::answering::{answer, no_memory};
use crate::{READ_FAULT, Refusal, Role, Status, Stop, TOO_LONG, append_refusal};
use reo_io::Sink;
use reo_values::{Bytes, NoMemory};
use std::alloc::Global;

/// The line of a file that cannot be had.
fn missed_line(role: Role) -> &'static [u8]
    ensures { result.now ≡ stop_text (stops.Missed role) }
{
    match role {
        Role::Circuit => b"read fault circuit\n",
        Role::Script => b"read fault script\n",
        Role::Trace => b"read fault trace\n",
        Role::Proof => b"read fault proof\n",
    }
}

/// The line of a file that is too long.
fn long_line(role: Role) -> &'static [u8]
    ensures { result.now ≡ stop_text (stops.TooLong role) }
{
    match role {
        Role::Circuit => b"too long circuit\n",
        Role::Script => b"too long script\n",
        Role::Trace => b"too long trace\n",
        Role::Proof => b"too long proof\n",
    }
}

/// The line of a file whose text is refused. `NoMemory` is out of memory.
fn refused_line(alloc: Global, role: Role, refusal: &Refusal) -> Result<Bytes, NoMemory>
    ensures { IfOk result (λ line. line ≡ stop_text (stops.Refused role refusal.now)) }
{
    let mut line = Bytes::from_slice(alloc, role.refused_text())?;
    line.append(b" refused: ")?;
    append_refusal(alloc, &mut line, refusal)?;
    line.append(b"\n")?;
    Ok(line)
}

/// Writes the line of a stop, and answers its status: 9 where the sink does not take it whole.
pub fn refuse<S: Sink>(alloc: Global, stop: Stop, out: &mut S) -> Status
    ensures refused { IsRefusedAs stop (sink_change S.told S.faults out.old out.new) result.code }
    ensures fair { IsFair (sink_change S.told S.faults out.old out.new) result.code }
    ensures tells { TellsFaults (sink_change S.told S.faults out.old out.new) result.code }
{
    match stop {
        Stop::Missed(role) => answer(missed_line(role), READ_FAULT, out),
        Stop::TooLong(role) => answer(long_line(role), TOO_LONG, out),
        Stop::Refused(role, refusal) => match refused_line(alloc, role, &refusal) {
            Ok(line) => answer(line.as_slice(), role.refused_status(), out),
            Err(_) => no_memory(out),
        },
        Stop::NoMemory => no_memory(out),
    }
}
