//! The command: `run CIRCUIT SCRIPT [--budget W] [--rounds N]` writes the trace of the script on
//! the circuit, `check CIRCUIT` the parts of the circuit, `print CIRCUIT` the canonical text of the
//! circuit, `upgrade CIRCUIT` that of version 2, `verify CIRCUIT SCRIPT TRACE` the verdict on the
//! trace, `bench N` what came of the run of made work, `live CIRCUIT [--budget W]` the answers to
//! the events of the input, `list CIRCUIT` the boundary tables of the circuit, `prove CIRCUIT
//! SCRIPT` the trace with a log behind each round, `verify-proof CIRCUIT SCRIPT PROOF` the verdict
//! on such a text.
#![tactic(auto)]

ghost use Rattle.std.specs.Prelude.{◌≡◌, ◌↔◌, [], IsTrue, MatchResult, Some, false};
ghost use Rattle.std.specs.Process.{exit_status};
ghost use Rattle.reo_command.specs.Commands.{command_of};
ghost use Rattle.reo_command.specs.Outside.{HasEnded, IsOut, output_change};
ghost use Rattle.reo_io.specs.Real.{writer_held};
ghost use Rattle.reo_command.specs.States.{files_change};
ghost use Rattle.reo_command.specs.declared.command.Command.TheVariants as commands;
ghost use Rattle.reo_live.specs.closings.Sources.{source_change};
ghost use Rattle.reo_top.specs.Done.{IsDone};
ghost use Rattle.reo.specs.Ended.{AreKept, EndsOver};

use reo_command::{OUT_OF_MEMORY, flushed, words_of};
use reo_io::{DiskFiles, Files, Holding, Source, StdSink, StdSource};
use reo_top::{Command, Status, command_of, reo};
use reo_values::{Bytes, List, NoMemory};
use std::alloc::Global;
use std::io::BufWriter;
use std::process::ExitCode;
use std::{env, io};

/// Memory ran out before the command could begin.
const NO_MEMORY: Status = Status {
    code: OUT_OF_MEMORY,
};

/// The exit code of a status.
fn exit_code(status: Status) -> ExitCode
    ensures { exit_status result ≡ status.code }
{
    ExitCode::from(status.code)
}

/// The status of the command with these words, once all that was put is out.
fn status_of<F: Files, R: Source, W: Holding>(
    alloc: Global,
    words: &List<Bytes>,
    files: &mut F,
    source: &mut R,
    out: &mut StdSink<W>,
) -> Status
    ensures { let files = files_change F.told F.failed F.given F.long F.fetches
        files.old files.new in
        let source = source_change R.told R.given R.ends R.faults source.old source.new in
        IsOut (IsDone words.now files source)
        (output_change out.old out.new) (writer_held W.held out.new) result.code }
{
    let status = reo(alloc, words, files, source, out);
    flushed(status, out)
}

/// What the process ends with: the status of the command with these words, or 10 where memory for
/// the words ran out.
fn ended<F: Files, R: Source, W: Holding>(
    alloc: Global,
    words: Result<List<Bytes>, NoMemory>,
    files: &mut F,
    source: &mut R,
    out: &mut StdSink<W>,
) -> ExitCode
    requires { writer_held W.held out.old ≡ [] }
    ensures { let files = files_change F.told F.failed F.given F.long F.fetches
        files.old files.new in
        let source = source_change R.told R.given R.ends R.faults source.old source.new in
        HasEnded (λ words. IsDone words files source) (AreKept files source) words
        (output_change out.old out.new) (writer_held W.held out.new) (exit_status result) }
{
    match words {
        Ok(words) => exit_code(status_of(alloc, &words, files, source, out)),
        Err(NoMemory) => exit_code(NO_MEMORY),
    }
}

/// Whether these words have events heard. Then each answer is written by itself, so that it is out
/// before more is taken.
fn hears(words: &Result<List<Bytes>, NoMemory>) -> bool
    ensures { MatchResult words.now
        (λ words. IsTrue result ↔ (command_of words ≡ Some commands.Live))
        (λ _. result ≡ false) }
{
    match words {
        Ok(words) => command_of(words.as_slice()) == Some(Command::Live),
        Err(NoMemory) => false,
    }
}

/// What the process ends with, over the system's files and input and this writer.
fn ended_on<W: Holding>(
    rt: &HostRuntime,
    words: Result<List<Bytes>, NoMemory>,
    out: &mut StdSink<W>,
) -> ExitCode
    requires { writer_held W.held out.old ≡ [] }
    ensures { EndsOver words (output_change out.old out.new)
        (writer_held W.held out.new) (exit_status result) }
{
    let alloc: Global = rt.alloc();
    let mut files = DiskFiles::new(alloc, rt);
    let mut source = StdSource::new(rt.reader());
    ended(alloc, words, &mut files, &mut source, out)
}

/// What is put is gathered and written in large pieces; each by itself where events are heard, or
/// where there is no memory for that.
fn main(rt: HostRuntime) -> ExitCode {
    let words = words_of(rt.alloc(), env::args(&rt));
    if hears(&words) {
        return ended_on(&rt, words, &mut StdSink::new(io::writer(&rt)));
    }
    let Ok(writer) = BufWriter::new(rt.alloc(), io::writer(&rt)) else {
        return ended_on(&rt, words, &mut StdSink::new(io::writer(&rt)));
    };
    let mut out = StdSink::new(writer);
    let code = ended_on(&rt, words, &mut out);
    let (_writer, _left) = out.into_writer().into_parts();
    code
}

#[cfg(test)]
mod tests;
