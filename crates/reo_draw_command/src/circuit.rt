//! The picture of a circuit that is fetched and read.
ghost use Rattle.std.specs.Prelude.{◌≡◌, false, [], ◌∷◌};
ghost use Rattle.reo_command.specs.declared.role.Role.TheVariants as roles;
ghost use Rattle.reo_command.specs.Readings.{ReadsCircuit, StopsCheck};
ghost use Rattle.reo_command.specs.ReadSteps.{circuit_in};
ghost use Rattle.reo_command.specs.States.{files_change, sink_change};
ghost use Rattle.reo_command.specs.Statuses.{IsAmong};
ghost use Rattle.reo_command.specs.top_base.Answered.{IsAnswered};
ghost use Rattle.reo_command.specs.top_base.Cases.{Cases, IsExact, IsFair, TellsFaults};
ghost use Rattle.reo_command.specs.top_base.Owed.{owed_by};
ghost use Rattle.reo_draw_command.specs.Drawn.{DrawsCircuit, no_scene};
ghost use Rattle.reo_draw_command.specs.DrawStatuses.{statuses_of_circuit};

use reo_command::{DONE, Status, answer, no_memory, read_flat, refuse};
use reo_drawing::{Scene, picture_text};
use reo_flatten::Flat;
use reo_io::{Files, Sink};
use reo_values::{Bytes, List};
use std::alloc::Global;

/// What is shown where no round is.
fn no_scene(alloc: Global) -> Scene
    ensures { result ≡ no_scene }
{
    Scene {
        title: Bytes::new(alloc),
        marks: List::new(alloc),
        lost: List::new(alloc),
    }
}

/// Writes the picture of a circuit.
fn write_circuit<S: Sink>(alloc: Global, flat: &Flat, out: &mut S) -> Status
    ensures cases { Cases (DrawsCircuit (circuit_in flat.now))
        (sink_change S.told S.faults out.old out.new) result.code }
    ensures exact { IsExact (DrawsCircuit (circuit_in flat.now))
        (sink_change S.told S.faults out.old out.new) result.code }
    ensures fair { IsFair (sink_change S.told S.faults out.old out.new) result.code }
    ensures tells { TellsFaults (sink_change S.told S.faults out.old out.new) result.code }
{
    let kinds = flat.circuit.primitives();
    let joints = flat.circuit.joints();
    let ports = flat.ports.list.as_slice();
    let homes = flat.homes.as_slice();
    let names = flat.nodes.as_slice();
    let scene = no_scene(alloc);
    match picture_text(alloc, kinds, joints, ports, homes, names, &scene, &[]) {
        Ok(text) => answer(text.as_slice(), DONE, out),
        Err(_) => no_memory(out),
    }
}

/// Fetches a circuit, reads it, and writes its picture.
pub(crate) fn draw_circuit<F: Files, S: Sink>(
    alloc: Global,
    name: &[u8],
    files: &mut F,
    out: &mut S,
) -> Status
    ensures answered { IsAnswered false (owed_by ReadsCircuit StopsCheck DrawsCircuit)
        (roles.Circuit ∷ []) (name.now ∷ [])
        (files_change F.told F.failed F.given F.long F.fetches files.old files.new)
        (sink_change S.told S.faults out.old out.new) result.code }
    ensures status { IsAmong statuses_of_circuit result.code }
    ensures fair { IsFair (sink_change S.told S.faults out.old out.new) result.code }
    ensures tells { TellsFaults (sink_change S.told S.faults out.old out.new) result.code }
{
    match read_flat(alloc, name, files) {
        Ok(flat) => write_circuit(alloc, &flat, out),
        Err(stop) => refuse(alloc, stop, out),
    }
}
