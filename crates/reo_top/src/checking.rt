//! The parts of a circuit that is fetched and read.
ghost use Rattle.std.specs.Prelude.{◌≡◌, [], ◌∷◌, length};
ghost use Rattle.reo_command.specs.declared.command.Command.TheVariants as commands;
ghost use Rattle.reo_command.specs.declared.role.Role.TheVariants as roles;
ghost use Rattle.reo_command.specs.top_base.Answered.{IsAnswered};
ghost use Rattle.reo_command.specs.top_base.Cases.{Cases, IsExact, IsFair, TellsFaults};
ghost use Rattle.reo_command.specs.Commands.{is_free};
ghost use Rattle.reo_top.specs.Owed.{ListsParts};
ghost use Rattle.reo_command.specs.top_base.Owed.{owed_by};
ghost use Rattle.reo_command.specs.Readings.{ReadsCircuit, StopsCheck};
ghost use Rattle.reo_command.specs.ReadSteps.{circuit_in};
ghost use Rattle.reo_command.specs.States.{files_change, sink_change};
ghost use Rattle.reo_command.specs.Statuses.{IsAmong, statuses_of};

use crate::inventory::parts_text;
use reo_command::{DONE, Status, answer, no_memory, read_flat, refuse};
use reo_flatten::Flat;
use reo_io::{Files, Sink};
use std::alloc::Global;

/// Writes the parts of a circuit.
fn write_parts<S: Sink>(alloc: Global, flat: &Flat, out: &mut S) -> Status
    requires { length flat.now.homes ≡ length flat.now.circuit.joints }
    ensures cases { Cases (ListsParts (circuit_in flat.now))
        (sink_change S.told S.faults out.old out.new) result.code }
    ensures exact { IsExact (ListsParts (circuit_in flat.now))
        (sink_change S.told S.faults out.old out.new) result.code }
    ensures fair { IsFair (sink_change S.told S.faults out.old out.new) result.code }
    ensures tells { TellsFaults (sink_change S.told S.faults out.old out.new) result.code }
{
    let homes = flat.homes.as_slice();
    match parts_text(alloc, &flat.circuit, homes, flat.nodes.as_slice()) {
        Ok(text) => answer(text.as_slice(), DONE, out),
        Err(_) => no_memory(out),
    }
}

/// Fetches the circuit, reads it, and writes its parts.
pub(crate) fn check_circuit<F: Files, S: Sink>(
    alloc: Global,
    name: &[u8],
    files: &mut F,
    out: &mut S,
) -> Status
    ensures answered { IsAnswered (is_free commands.Check)
        (owed_by ReadsCircuit StopsCheck ListsParts)
        (roles.Circuit ∷ []) (name.now ∷ [])
        (files_change F.told F.failed F.given F.long F.fetches files.old files.new)
        (sink_change S.told S.faults out.old out.new) result.code }
    ensures status { IsAmong (statuses_of commands.Check) result.code }
    ensures fair { IsFair (sink_change S.told S.faults out.old out.new) result.code }
    ensures tells { TellsFaults (sink_change S.told S.faults out.old out.new) result.code }
{
    match read_flat(alloc, name, files) {
        Ok(flat) => write_parts(alloc, &flat, out),
        Err(stop) => refuse(alloc, stop, out),
    }
}
