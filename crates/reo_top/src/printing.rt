//! The canonical texts of a circuit that is fetched and read.
ghost use Rattle.std.specs.Prelude.{[], ◌∷◌};
ghost use Rattle.reo_command.specs.declared.command.Command.TheVariants as commands;
ghost use Rattle.reo_command.specs.declared.role.Role.TheVariants as roles;
ghost use Rattle.reo_command.specs.top_base.Answered.{IsAnswered};
ghost use Rattle.reo_command.specs.top_base.Cases.{Cases, IsExact, IsFair, TellsFaults};
ghost use Rattle.reo_command.specs.Commands.{is_free};
ghost use Rattle.reo_top.specs.Owed.{PrintsProgram, UpgradesProgram};
ghost use Rattle.reo_command.specs.top_base.Owed.{owed_by};
ghost use Rattle.reo_command.specs.Readings.{ReadsProgram, StopsPrint};
ghost use Rattle.reo_command.specs.States.{files_change, sink_change};
ghost use Rattle.reo_command.specs.Statuses.{IsAmong, statuses_of};

use reo_command::{DONE, Status, answer, no_memory, read_program, refuse};
use reo_io::{Files, Sink};
use reo_trees::AnyProgram;
use reo_upgrade::{print_any, upgrade};
use std::alloc::Global;

/// Writes the canonical text of a program, of its own version.
fn write_text<S: Sink>(alloc: Global, program: &AnyProgram, out: &mut S) -> Status
    ensures cases { Cases (PrintsProgram program.now)
        (sink_change S.told S.faults out.old out.new) result.code }
    ensures exact { IsExact (PrintsProgram program.now)
        (sink_change S.told S.faults out.old out.new) result.code }
    ensures fair { IsFair (sink_change S.told S.faults out.old out.new) result.code }
    ensures tells { TellsFaults (sink_change S.told S.faults out.old out.new) result.code }
{
    match print_any(alloc, program) {
        Ok(text) => answer(text.as_slice(), DONE, out),
        Err(_) => no_memory(out),
    }
}

/// Fetches the circuit, reads it, and writes its canonical text.
pub(crate) fn print_circuit<F: Files, S: Sink>(
    alloc: Global,
    name: &[u8],
    files: &mut F,
    out: &mut S,
) -> Status
    ensures answered { IsAnswered (is_free commands.Print)
        (owed_by ReadsProgram StopsPrint PrintsProgram)
        (roles.Circuit ∷ []) (name.now ∷ [])
        (files_change F.told F.failed F.given F.long F.fetches files.old files.new)
        (sink_change S.told S.faults out.old out.new) result.code }
    ensures status { IsAmong (statuses_of commands.Print) result.code }
    ensures fair { IsFair (sink_change S.told S.faults out.old out.new) result.code }
    ensures tells { TellsFaults (sink_change S.told S.faults out.old out.new) result.code }
{
    match read_program(alloc, name, files) {
        Ok(program) => write_text(alloc, &program, out),
        Err(stop) => refuse(alloc, stop, out),
    }
}

/// Writes the canonical text of a program as one of version 2.
fn write_upgraded<S: Sink>(alloc: Global, program: &AnyProgram, out: &mut S) -> Status
    ensures cases { Cases (UpgradesProgram program.now)
        (sink_change S.told S.faults out.old out.new) result.code }
    ensures exact { IsExact (UpgradesProgram program.now)
        (sink_change S.told S.faults out.old out.new) result.code }
    ensures fair { IsFair (sink_change S.told S.faults out.old out.new) result.code }
    ensures tells { TellsFaults (sink_change S.told S.faults out.old out.new) result.code }
{
    match upgrade(alloc, program) {
        Ok(text) => answer(text.as_slice(), DONE, out),
        Err(_) => no_memory(out),
    }
}

/// Fetches the circuit, reads it, and writes its canonical text of version 2.
pub(crate) fn upgrade_circuit<F: Files, S: Sink>(
    alloc: Global,
    name: &[u8],
    files: &mut F,
    out: &mut S,
) -> Status
    ensures answered { IsAnswered (is_free commands.Upgrade)
        (owed_by ReadsProgram StopsPrint UpgradesProgram)
        (roles.Circuit ∷ []) (name.now ∷ [])
        (files_change F.told F.failed F.given F.long F.fetches files.old files.new)
        (sink_change S.told S.faults out.old out.new) result.code }
    ensures status { IsAmong (statuses_of commands.Upgrade) result.code }
    ensures fair { IsFair (sink_change S.told S.faults out.old out.new) result.code }
    ensures tells { TellsFaults (sink_change S.told S.faults out.old out.new) result.code }
{
    match read_program(alloc, name, files) {
        Ok(program) => write_upgraded(alloc, &program, out),
        Err(stop) => refuse(alloc, stop, out),
    }
}
