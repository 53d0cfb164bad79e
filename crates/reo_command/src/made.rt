//! Made work, which is read as files are.
ghost use Rattle.std.specs.Prelude.{◌<◌, ◌≤◌, ◌^◌, IfOk, IfErr, length, map};
ghost use Rattle.reo_kinds.specs.Kinds.{port_state_of};
ghost use Rattle.reo_runner.specs.Runs.{CanRun};
ghost use Rattle.reo_command.specs.Made.{ReadsTexts, TextsStop, ReadsMade};
ghost use Rattle.reo_command.specs.ReadSteps.{IsStoppedBy, runnable_in};

use crate::reading::CircuitAndScript;
use crate::stop::Stop;
use crate::texts::{circuit_of, script_of};
use reo_gen::{make, work_is_accepted};
use reo_values::NoMemory;
use std::alloc::Global;

/// The circuit and the script that two texts say, or what stops their run.
fn read_texts(alloc: Global, circuit: &[u8], script: &[u8]) -> Result<CircuitAndScript, Stop>
    requires circuit { length circuit.now < 2 ^ 32 }
    requires script { length script.now < 2 ^ 32 }
    ensures read { IfOk result (λ work.
        ReadsTexts circuit.now script.now (runnable_in work.flat work.script)) }
    ensures stop { IfErr result (IsStoppedBy (TextsStop circuit.now script.now)) }
    ensures fit { IfOk result (λ work. CanRun (map port_state_of work.flat.circuit.primitives)
        work.flat.circuit.ports work.flat.ports.list work.script.components) }
{
    let flat = match circuit_of(alloc, circuit) {
        Ok(flat) => flat,
        Err(stop) => return Err(stop),
    };
    match script_of(alloc, script, &flat.ports) {
        Ok(script) => Ok(CircuitAndScript { flat, script }),
        Err(stop) => Err(stop),
    }
}

/// The circuit and the script of made work. `NoMemory` is out of memory.
pub fn make_run(alloc: Global, size: u32) -> Result<CircuitAndScript, NoMemory>
    requires some { 1 ≤ size }
    requires few { size ≤ 256 }
    ensures read { IfOk result (λ work. ReadsMade size (runnable_in work.flat work.script)) }
    ensures fit { IfOk result (λ work. CanRun (map port_state_of work.flat.circuit.primitives)
        work.flat.circuit.ports work.flat.ports.list work.script.components) }
{
    work_is_accepted();
    let made = make(alloc, size)?;
    match read_texts(alloc, made.circuit.as_slice(), made.script.as_slice()) {
        Ok(work) => Ok(work),
        Err(stop) => match stop {
            Stop::NoMemory => Err(NoMemory),
            _ => unreachable!(),
        },
    }
}
