//! Events of the source that are heard on a circuit.
ghost use Rattle.std.specs.Prelude.{◌≡◌, ◌≤◌, ◌^◌, [], ◌∷◌};
ghost use Rattle.reo_live.specs.closings.Sources.{source_change};
ghost use Rattle.reo_command.specs.declared.command.Command.TheVariants as commands;
ghost use Rattle.reo_command.specs.declared.role.Role.TheVariants as roles;
ghost use Rattle.reo_command.specs.Commands.{is_free};
ghost use Rattle.reo_command.specs.Readings.{ReadsCircuit, StopsCheck};
ghost use Rattle.reo_command.specs.ReadSteps.{HasItsPorts, circuit_in};
ghost use Rattle.reo_command.specs.States.{files_change, sink_change};
ghost use Rattle.reo_command.specs.Statuses.{IsAmong, statuses_of};
ghost use Rattle.reo_top.specs.Answers.{IsHeardAs};
ghost use Rattle.reo_command.specs.top_base.Cases.{IsFair, TellsFaults};
ghost use Rattle.reo_top.specs.Closed.{IsClosedAs};
ghost use Rattle.reo_top.specs.Heard.{HearsCircuit, IsHeardOn};
ghost use Rattle.reo_command.specs.top_base.Owed.{owed_by};

use reo_command::{
    DONE, PART_OVER, READ_FAULT, Status, TOO_LONG, WRITE_FAULT, answer, no_memory, read_flat,
    refuse,
};
use reo_flatten::Flat;
use reo_io::{Files, Sink, Source};
use reo_kinds::Kind;
use reo_live::{Heard, Live, closing_exists, closing_is_one, hear};
use reo_runs::known_order;
use std::alloc::Global;

/// Writes the line behind the answers, if one is owed, and answers the status.
fn close<S: Sink>(heard: Heard, out: &mut S) -> Status
    ensures closed { IsClosedAs heard (sink_change S.told S.faults out.old out.new) result.code }
    ensures later { S.faults out.old ≤ S.faults out.new }
    ensures tells { TellsFaults (sink_change S.told S.faults out.old out.new) result.code }
{
    match heard {
        Heard::Ended => Status { code: DONE },
        Heard::Stopped => Status { code: PART_OVER },
        Heard::Many => answer(b"too long events\n", TOO_LONG, out),
        Heard::Missed => answer(b"read fault events\n", READ_FAULT, out),
        Heard::Broken => Status { code: WRITE_FAULT },
        Heard::NoMemory => no_memory(out),
    }
}

/// Hears what a source gives on a circuit, and writes the answers.
fn hear_source<R: Source, S: Sink>(
    alloc: Global,
    flat: Flat,
    budget: u64,
    source: &mut R,
    out: &mut S,
) -> Status
    requires small { budget ≤ 10 ^ 9 }
    requires ports { HasItsPorts flat.circuit flat.ports.list }
    ensures heard { IsHeardOn budget (circuit_in flat)
        (source_change R.told R.given R.ends R.faults source.old source.new)
        (sink_change S.told S.faults out.old out.new) result.code }
    ensures fair { IsFair (sink_change S.told S.faults out.old out.new) result.code }
    ensures tells { TellsFaults (sink_change S.told S.faults out.old out.new) result.code }
{
    known_order(&flat.circuit);
    closing_is_one::<Kind>();
    let Ok(mut live) = Live::new(alloc, flat, budget) else {
        return no_memory(out);
    };
    let heard = hear(alloc, &mut live, source, out);
    live.release();
    close(heard, out)
}

/// Fetches the circuit, reads it, and hears the source on it.
pub(crate) fn hear_events<F: Files, R: Source, S: Sink>(
    alloc: Global,
    name: &[u8],
    budget: u64,
    files: &mut F,
    source: &mut R,
    out: &mut S,
) -> Status
    requires small { budget ≤ 10 ^ 9 }
    ensures answered { IsHeardAs (is_free commands.Live)
        (λ events. owed_by ReadsCircuit StopsCheck (HearsCircuit budget events))
        (roles.Circuit ∷ []) (name.now ∷ [])
        (files_change F.told F.failed F.given F.long F.fetches files.old files.new)
        (source_change R.told R.given R.ends R.faults source.old source.new)
        (sink_change S.told S.faults out.old out.new) result.code }
    ensures status { IsAmong (statuses_of commands.Live) result.code }
    ensures fair { IsFair (sink_change S.told S.faults out.old out.new) result.code }
    ensures tells { TellsFaults (sink_change S.told S.faults out.old out.new) result.code }
{
    match read_flat(alloc, name, files) {
        Ok(flat) => hear_source(alloc, flat, budget, source, out),
        Err(stop) => refuse(alloc, stop, out),
    }
}
