//! Connectors that are opened from texts.
ghost use Rattle.std.specs.Prelude.{◌≡◌, ◌≤◌, length, map, IfOk};
ghost use Rattle.reo_command.specs.declared.role.Role.TheVariants as roles;
ghost use Rattle.reo_command.specs.ReadSteps.{HasItsPorts, circuit_in};
ghost use Rattle.reo_command.specs.Roles.{most_bytes};
ghost use Rattle.reo_io.specs.Sure.{sure_files};
ghost use Rattle.reo_kinds.specs.Kinds.{port_state_of};
ghost use Rattle.reo_rounds.specs.Offering.{AreJustPorts};
ghost use Rattle.reo_connector.specs.Opening.{IsFlatRead, IsOpened, alone, begun};

use crate::connector::{Connector, MOST_BYTES};
use reo_command::{Role, Stop, read_flat};
use reo_flatten::Flat;
use reo_io::{Named, SureFiles};
use reo_runner::Engine;
use reo_values::{Bytes, List, NoMemory};
use std::alloc::Global;

/// A text as the one file that there is, without a name. `NoMemory` is out of memory.
fn alone(alloc: Global, text: &[u8]) -> Result<SureFiles, NoMemory>
    ensures { IfOk result (λ files. sure_files files ≡ alone text.now) }
{
    let name = Bytes::new(alloc);
    let bytes = Bytes::from_slice(alloc, text)?;
    let mut files = List::new(alloc);
    files.push(Named { name, bytes })?;
    SureFiles::new(alloc, files)
}

/// The flat circuit that a text says, or why it says none.
fn flat_of(alloc: Global, text: &[u8]) -> Result<Flat, Stop>
    requires { length text.now ≤ most_bytes roles.Circuit }
    ensures read { IsFlatRead text.now result }
    ensures ports { IfOk result (λ flat. HasItsPorts flat.circuit flat.ports.list) }
{
    match alone(alloc, text) {
        Ok(mut files) => read_flat(alloc, b"", &mut files),
        Err(_) => Err(Stop::NoMemory),
    }
}

/// The connector of a flat circuit, at its first round. `NoMemory` is out of memory.
#[tactic(auto, using(crate::proofs::OpenedLemmas::just))]
fn begun(alloc: Global, flat: Flat) -> Result<Connector, NoMemory>
    requires { HasItsPorts flat.circuit flat.ports.list }
    ensures { IfOk result (λ made. made ≡ begun (circuit_in flat)) }
{
    let Flat {
        circuit,
        ports,
        nodes: _,
        homes: _,
    } = flat;
    let engine = Engine::new(alloc, circuit)?;
    Ok(Connector { engine, ports })
}

impl Connector {
    /// The connector that a circuit text of either version says, at its first round, with nothing
    /// offered.
    ///
    /// # Errors
    ///
    /// `TooLong`: exactly where the text has more than `MOST_BYTES` bytes. `Refused`, with the line
    /// and the words of the cause: exactly where it says no circuit that is accepted. `NoMemory` is
    /// out of memory. `Missed` never comes.
    pub fn open(alloc: Global, text: &[u8]) -> Result<Connector, Stop>
        ensures { IsOpened text.now result }
    {
        if text.len() > MOST_BYTES {
            return Err(Stop::TooLong(Role::Circuit));
        }
        match flat_of(alloc, text) {
            Ok(flat) => match begun(alloc, flat) {
                Ok(made) => Ok(made),
                Err(_) => Err(Stop::NoMemory),
            },
            Err(stop) => Err(stop),
        }
    }
}
