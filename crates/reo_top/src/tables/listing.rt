//! A circuit that is fetched and read, and its boundary tables.
ghost use Rattle.std.specs.Prelude.{◌<◌, ◌^◌, [], ◌∷◌};
ghost use Rattle.reo_command.specs.declared.command.Command.TheVariants as commands;
ghost use Rattle.reo_command.specs.declared.role.Role.TheVariants as roles;
ghost use Rattle.reo_command.specs.Commands.{is_free};
ghost use Rattle.reo_command.specs.Limits.{usual_limits};
ghost use Rattle.reo_command.specs.Readings.{ReadsCircuit, StopsCheck};
ghost use Rattle.reo_command.specs.ReadSteps.{circuit_in};
ghost use Rattle.reo_command.specs.States.{files_change, sink_change};
ghost use Rattle.reo_command.specs.Statuses.{IsAmong, statuses_of};
ghost use Rattle.reo_command.specs.top_base.Answered.{IsAnswered};
ghost use Rattle.reo_command.specs.top_base.Cases.{Cases, IsExact, IsFair, TellsFaults};
ghost use Rattle.reo_command.specs.top_base.Owed.{owed_by};
ghost use Rattle.reo_top.specs.tables.Listings.{ListsTables};

use crate::tables::tables::{list_tables, listing_status, listing_text};
use reo_command::{Status, answer, no_memory, read_flat, refuse, usual_limits};
use reo_flatten::Flat;
use reo_io::{Files, Sink};
use reo_listing::one_listing;
use std::alloc::Global;

/// Writes the tables of a circuit within a budget, or why they are not listed. Nothing is written
/// before all tables are found.
fn write_listing<S: Sink>(alloc: Global, flat: &Flat, budget: u64, out: &mut S) -> Status
    requires { budget < 10 ^ 18 }
    ensures cases { Cases (ListsTables budget (circuit_in flat.now))
        (sink_change S.told S.faults out.old out.new) result.code }
    ensures exact { IsExact (ListsTables budget (circuit_in flat.now))
        (sink_change S.told S.faults out.old out.new) result.code }
    ensures fair { IsFair (sink_change S.told S.faults out.old out.new) result.code }
    ensures tells { TellsFaults (sink_change S.told S.faults out.old out.new) result.code }
{
    flat.circuit.known();
    one_listing();
    let listing = list_tables(alloc, flat, budget);
    match listing_text(alloc, flat.ports.list.as_slice(), budget, &listing) {
        Ok(text) => answer(text.as_slice(), listing_status(&listing), out),
        Err(_) => no_memory(out),
    }
}

/// Fetches the circuit, reads it, and writes its tables within the usual budget.
pub fn list_circuit<F: Files, S: Sink>(
    alloc: Global,
    name: &[u8],
    files: &mut F,
    out: &mut S,
) -> Status
    ensures answered { IsAnswered (is_free commands.Tables)
        (owed_by ReadsCircuit StopsCheck (ListsTables usual_limits.budget))
        (roles.Circuit ∷ []) (name.now ∷ [])
        (files_change F.told F.failed F.given F.long F.fetches files.old files.new)
        (sink_change S.told S.faults out.old out.new) result.code }
    ensures status { IsAmong (statuses_of commands.Tables) result.code }
    ensures fair { IsFair (sink_change S.told S.faults out.old out.new) result.code }
    ensures tells { TellsFaults (sink_change S.told S.faults out.old out.new) result.code }
{
    match read_flat(alloc, name, files) {
        Ok(flat) => write_listing(alloc, &flat, usual_limits().budget, out),
        Err(stop) => refuse(alloc, stop, out),
    }
}
