//! Circuits and scripts that are fetched and read.
ghost use Rattle.std.specs.Prelude.{◌≡◌, [], ◌∷◌, IfOk, length, map};
ghost use Rattle.reo_kinds.specs.Kinds.{port_state_of};
ghost use Rattle.reo_players.specs.Written.{written_out};
ghost use Rattle.reo_runner.specs.Runs.{CanRun};
ghost use Rattle.reo_script.specs.Places.{ArePortsOf};
ghost use Rattle.reo_runs.specs.run_premises.Fitting.{FitPorts};
ghost use Rattle.reo_trace_reader.specs.texts.Lines.{AreTold};
ghost use Rattle.reo_command.specs.declared.role.Role.TheVariants as roles;
ghost use Rattle.reo_command.specs.Readings.{IsReadFrom, ReadsProgram, StopsPrint, ReadsCircuit, StopsCheck, ReadsRun, StopsRun};
ghost use Rattle.reo_command.specs.ReadSteps.{IsScriptRead, HasItsPorts, circuit_in, runnable_in};
ghost use Rattle.reo_command.specs.States.{files_change};

use crate::fetching::fetch;
use crate::role::Role;
use crate::stop::Stop;
use crate::texts::{circuit_of, program_of, script_of};
use reo_flatten::Flat;
use reo_io::Files;
use reo_net_base::Ports;
use reo_script::Script;
use reo_trees::AnyProgram;
use std::alloc::Global;

/// The program of either version that a file says, or what stops the command.
pub fn read_program<F: Files>(alloc: Global, name: &[u8], files: &mut F) -> Result<AnyProgram, Stop>
    ensures { IsReadFrom ReadsProgram StopsPrint (roles.Circuit ∷ []) (name.now ∷ [])
        (files_change F.told F.failed F.given F.long F.fetches files.old files.new) result }
{
    let text = fetch(alloc, Role::Circuit, name, files)?;
    program_of(alloc, text.as_slice())
}

/// The flat circuit of the program that a file says, or for which its program stands, or what stops
/// the command.
pub fn read_flat<F: Files>(alloc: Global, name: &[u8], files: &mut F) -> Result<Flat, Stop>
    ensures read { IsReadFrom (λ answers flat. ReadsCircuit answers (circuit_in flat))
        StopsCheck (roles.Circuit ∷ []) (name.now ∷ [])
        (files_change F.told F.failed F.given F.long F.fetches files.old files.new) result }
    ensures homes { IfOk result (λ flat. length flat.homes ≡ length flat.circuit.joints) }
    ensures ports { IfOk result (λ flat. HasItsPorts flat.circuit flat.ports.list) }
{
    let text = fetch(alloc, Role::Circuit, name, files)?;
    circuit_of(alloc, text.as_slice())
}

/// The script that a file says for the ports of a circuit, or what stops the command.
fn read_components<F: Files>(
    alloc: Global,
    ports: &Ports,
    name: &[u8],
    files: &mut F,
) -> Result<Script, Stop>
    requires { ArePortsOf ports.now.list }
    ensures read { IsScriptRead ports.now.list (name.now ∷ [])
        (files_change F.told F.failed F.given F.long F.fetches files.old files.new) result }
    ensures fit { IfOk result (λ script.
        FitPorts ports.now.list (map written_out script.components)) }
{
    let text = fetch(alloc, Role::Script, name, files)?;
    script_of(alloc, text.as_slice(), ports)
}

/// A circuit, and a script for its ports.
#[derive(Drop)]
pub struct CircuitAndScript {
    pub flat: Flat,
    pub script: Script,
}

/// The circuit and the script that two files say, or what stops the command. The script is fetched
/// once the circuit is accepted.
pub fn read_run<F: Files>(
    alloc: Global,
    circuit: &[u8],
    script: &[u8],
    files: &mut F,
) -> Result<CircuitAndScript, Stop>
    ensures read { IsReadFrom (λ answers work. ReadsRun answers (runnable_in work.flat work.script))
        StopsRun (roles.Circuit ∷ roles.Script ∷ []) (circuit.now ∷ script.now ∷ [])
        (files_change F.told F.failed F.given F.long F.fetches files.old files.new) result }
    ensures fit { IfOk result (λ work. CanRun (map port_state_of work.flat.circuit.primitives)
        work.flat.circuit.ports work.flat.ports.list work.script.components) }
    ensures told { IfOk result (λ work. AreTold work.flat.ports.list) }
{
    let flat = match read_flat(alloc, circuit, files) {
        Ok(flat) => flat,
        Err(stop) => return Err(stop),
    };
    match read_components(alloc, &flat.ports, script, files) {
        Ok(script) => Ok(CircuitAndScript { flat, script }),
        Err(stop) => Err(stop),
    }
}
