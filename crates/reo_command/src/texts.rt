//! What the texts of files say, or what stops a command for them.
ghost use Rattle.std.specs.Prelude.{◌≡◌, ◌<◌, ◌^◌, IfOk, Ok, length, map};
ghost use Rattle.std.specs.List.{All};
ghost use Rattle.reo_trees.specs.SaysTwo.{SaysAny};
ghost use Rattle.reo_circuit_texts.specs.Circuits.{SaysCircuit};
ghost use Rattle.reo_syntax_laws.specs.trees_laws.Spelled.{IsSpelled};
ghost use Rattle.reo_rules.specs.Scopes.{connectors_of};
ghost use Rattle.reo_flat.specs.flatten_laws.Plain.{HasPlainNames};
ghost use Rattle.reo_players.specs.Written.{written_out};
ghost use Rattle.reo_script.specs.Places.{ArePortsOf};
ghost use Rattle.reo_script.specs.scripts.ScriptAnswers.{Answers};
ghost use Rattle.reo_runs.specs.run_premises.Fitting.{FitPorts};
ghost use Rattle.reo_trace_reader.specs.texts.Lines.{AreTold};
ghost use Rattle.reo_trace_reader.specs.texts.Texts.{IsTraceText};
ghost use Rattle.reo_runs.specs.verdicts.Replays.{HasText};
ghost use Rattle.reo_command.specs.declared.role.Role.TheVariants as roles;
ghost use Rattle.reo_command.specs.Claims.{TraceStops};
ghost use Rattle.reo_command.specs.Readings.{IsCircuitText, ProgramStops, UnfoldingStops, CircuitStops, ScriptStops};
ghost use Rattle.reo_command.specs.ReadSteps.{IsRefusalOf, IsExpandedAs, IsTextRead, HasItsPorts, circuit_in};
ghost use Rattle.reo_command.specs.Refusals.{parse_refusal, expand_refusal, flat_refusal, script_refusal, trace_refusal};

use crate::refusal::{expand_refusal, flat_refusal, parse_refusal, script_refusal, trace_refusal};
use crate::role::Role;
use crate::stop::Stop;
use reo_circuit_texts::{circuit_names_are_plain, circuits_are_spelled};
use reo_expand::{ExpandFault, expand};
use reo_flat::homes_fit;
use reo_flatten::{Flat, FlatFault, flatten};
use reo_net_base::Ports;
use reo_parser::{ParseFault, parse_any};
use reo_runs::{flat_ports_fit, ports_are_told, scripts_fit};
use reo_script::{Script, ScriptFault, read_script};
use reo_trace_reader::{TraceFault, TraceText};
use reo_trees::{AnyProgram, Program, ProgramTwo};
use reo_values::Bytes;
use std::alloc::Global;

/// What stops a command whose circuit text says no program.
fn program_stop(alloc: Global, fault: &ParseFault) -> Stop
    ensures { IsRefusalOf roles.Circuit (parse_refusal fault.now) result }
{
    match parse_refusal(alloc, fault) {
        Ok(refusal) => Stop::Refused(Role::Circuit, refusal),
        Err(_) => Stop::NoMemory,
    }
}

/// The program of either version that a text says, or what stops the command.
pub(crate) fn program_of(alloc: Global, text: &[u8]) -> Result<AnyProgram, Stop>
    requires few { length text.now < 2 ^ 32 }
    ensures { IsTextRead SaysAny ProgramStops text.now result }
{
    match parse_any(alloc, text) {
        Ok(program) => Ok(program),
        Err(fault) => Err(program_stop(alloc, &fault)),
    }
}

/// What stops a command whose program of version 2 stands for none.
fn expansion_stop(alloc: Global, fault: &ExpandFault) -> Stop
    ensures { IsRefusalOf roles.Circuit (expand_refusal fault.now) result }
{
    match expand_refusal(alloc, fault) {
        Ok(refusal) => Stop::Refused(Role::Circuit, refusal),
        Err(_) => Stop::NoMemory,
    }
}

/// What a program of version 2 stands for, or what stops the command.
fn expansion_of(alloc: Global, program: &ProgramTwo) -> Result<Program, Stop>
    ensures { IsExpandedAs program.now result }
{
    match expand(alloc, program) {
        Ok(program) => Ok(program),
        Err(fault) => Err(expansion_stop(alloc, &fault)),
    }
}

/// The program that a text says, or for which the one that it says stands, or what stops the
/// command.
fn unfolding_of(alloc: Global, text: &[u8]) -> Result<Program, Stop>
    requires few { length text.now < 2 ^ 32 }
    ensures read { IsTextRead SaysCircuit UnfoldingStops text.now result }
    ensures spelled { IfOk result (λ program. IsSpelled program) }
    ensures plain { IfOk result (λ program.
        All HasPlainNames (connectors_of program.declarations)) }
{
    circuit_names_are_plain();
    circuits_are_spelled();
    match program_of(alloc, text) {
        Ok(AnyProgram::One(program)) => Ok(program),
        Ok(AnyProgram::Two(program)) => expansion_of(alloc, &program),
        Err(stop) => Err(stop),
    }
}

/// What stops a command whose circuit breaks a rule.
fn circuit_stop(alloc: Global, fault: &FlatFault) -> Stop
    ensures { IsRefusalOf roles.Circuit (flat_refusal fault.now) result }
{
    match flat_refusal(alloc, fault) {
        Ok(refusal) => Stop::Refused(Role::Circuit, refusal),
        Err(_) => Stop::NoMemory,
    }
}

/// The flat circuit of the program that a text says, or what stops the command.
pub(crate) fn circuit_of(alloc: Global, text: &[u8]) -> Result<Flat, Stop>
    requires few { length text.now < 2 ^ 32 }
    ensures read { IsTextRead (λ bytes flat. IsCircuitText bytes (circuit_in flat)) CircuitStops
        text.now result }
    ensures homes { IfOk result (λ flat. length flat.homes ≡ length flat.circuit.joints) }
    ensures ports { IfOk result (λ flat. HasItsPorts flat.circuit flat.ports.list) }
{
    homes_fit();
    flat_ports_fit();
    ports_are_told();
    let program = match unfolding_of(alloc, text) {
        Ok(program) => program,
        Err(stop) => return Err(stop),
    };
    match flatten(alloc, &program) {
        Ok(flat) => Ok(flat),
        Err(fault) => Err(circuit_stop(alloc, &fault)),
    }
}

/// What stops a run whose script is refused.
fn script_stop(alloc: Global, fault: &ScriptFault) -> Stop
    ensures { IsRefusalOf roles.Script (script_refusal fault.now) result }
{
    match script_refusal(alloc, fault) {
        Ok(refusal) => Stop::Refused(Role::Script, refusal),
        Err(_) => Stop::NoMemory,
    }
}

/// The script that a text says for the ports of a circuit, or what stops the command.
pub(crate) fn script_of(alloc: Global, text: &[u8], ports: &Ports) -> Result<Script, Stop>
    requires few { length text.now < 2 ^ 32 }
    requires ports { ArePortsOf ports.now.list }
    ensures read { IsTextRead (λ bytes script. Answers bytes ports.now.list (Ok script))
        (ScriptStops ports.now.list) text.now result }
    ensures fit { IfOk result (λ script.
        FitPorts ports.now.list (map written_out script.components)) }
{
    scripts_fit();
    match read_script(alloc, text, ports) {
        Ok(script) => Ok(script),
        Err(fault) => Err(script_stop(alloc, &fault)),
    }
}

/// What stops a verification whose trace text is none.
fn trace_stop(alloc: Global, fault: TraceFault) -> Stop
    ensures { IsRefusalOf roles.Trace (trace_refusal fault) result }
{
    match trace_refusal(alloc, fault) {
        Ok(refusal) => Stop::Refused(Role::Trace, refusal),
        Err(_) => Stop::NoMemory,
    }
}

/// The trace that a text is for the ports of a circuit, or what stops the command.
pub(crate) fn trace_of(alloc: Global, text: Bytes, ports: &Ports) -> Result<TraceText, Stop>
    requires { AreTold ports.now.list }
    ensures read { IsTextRead (IsTraceText ports.now.list) (TraceStops ports.now.list)
        text result }
    ensures text { IfOk result (HasText ports.now.list) }
{
    let _length = text.as_slice().len();
    match TraceText::read(alloc, text, ports) {
        Ok(trace) => Ok(trace),
        Err(fault) => Err(trace_stop(alloc, fault)),
    }
}
