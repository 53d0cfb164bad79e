//! A circuit with a script for it.
ghost use Rattle.std.specs.Prelude.{◌≡◌, ◌≤◌, IfOk};
ghost use Rattle.reo_gen.specs.Circuits.{circuit_text};
ghost use Rattle.reo_gen.specs.Scripts.{script_text};

use crate::circuit::circuit_of;
use crate::script::script_of;
use reo_values::{Bytes, NoMemory};
use std::alloc::Global;

/// The text of a circuit, and the text of a script for its ports.
#[derive(Drop)]
pub struct Work {
    pub circuit: Bytes,
    pub script: Bytes,
}

/// The work of a number: so many stages in a row, a component that writes twenty numbers, and one
/// at each output that takes. `NoMemory` means out of memory.
pub fn make(alloc: Global, number: u32) -> Result<Work, NoMemory>
    requires some { 1 ≤ number }
    requires few { number ≤ 256 }
    ensures circuit { IfOk result (λ work. work.circuit ≡ circuit_text number) }
    ensures script { IfOk result (λ work. work.script ≡ script_text number) }
{
    let circuit = circuit_of(alloc, number)?;
    let script = script_of(alloc, number)?;
    Ok(Work { circuit, script })
}
