//! The drawing program: `CIRCUIT` draws the circuit, `CIRCUIT SCRIPT TRACE` writes what moved at
//! its ports in the rounds of a trace of the script, and `CIRCUIT SCRIPT TRACE ROUND` draws the
//! circuit in a round of it.
#![tactic(auto)]

ghost use Rattle.std.specs.Prelude.{◌≡◌, []};
ghost use Rattle.std.specs.Process.{exit_status};
ghost use Rattle.reo_command.specs.Outside.{HasEnded, IsOut, output_change};
ghost use Rattle.reo_io.specs.Real.{writer_held};
ghost use Rattle.reo_command.specs.States.{files_change};
ghost use Rattle.reo_draw_command.specs.Done.{IsDone};
ghost use Rattle.reo_draw.specs.Ended.{EndsOver};

use reo_command::{OUT_OF_MEMORY, Status, flushed, words_of};
use reo_draw_command::draw;
use reo_io::{DiskFiles, Files, Holding, StdSink};
use reo_values::{Bytes, List, NoMemory};
use std::alloc::Global;
use std::io::BufWriter;
use std::process::ExitCode;
use std::{env, io};

/// Memory ran out before the command could begin.
const NO_MEMORY: Status = Status {
    code: OUT_OF_MEMORY,
};

/// The exit code of a status.
fn exit_code(status: Status) -> ExitCode
    ensures { exit_status result ≡ status.code }
{
    ExitCode::from(status.code)
}

/// The status of the command with these words, once all that was put is out.
fn status_of<F: Files, W: Holding>(
    alloc: Global,
    words: &List<Bytes>,
    files: &mut F,
    out: &mut StdSink<W>,
) -> Status
    ensures { let files = files_change F.told F.failed F.given F.long F.fetches
        files.old files.new in
        IsOut (IsDone words.now files)
        (output_change out.old out.new) (writer_held W.held out.new) result.code }
{
    let status = draw(alloc, words, files, out);
    flushed(status, out)
}

/// What the process ends with: the status of the command with these words, or 10 where memory for
/// the words ran out.
fn ended<F: Files, W: Holding>(
    alloc: Global,
    words: Result<List<Bytes>, NoMemory>,
    files: &mut F,
    out: &mut StdSink<W>,
) -> ExitCode
    requires { writer_held W.held out.old ≡ [] }
    ensures { let files = files_change F.told F.failed F.given F.long F.fetches
        files.old files.new in
        HasEnded (λ words. IsDone words files) (files.new ≡ files.old) words
        (output_change out.old out.new) (writer_held W.held out.new) (exit_status result) }
{
    match words {
        Ok(words) => exit_code(status_of(alloc, &words, files, out)),
        Err(NoMemory) => exit_code(NO_MEMORY),
    }
}

/// What the process ends with, over the system's files and this writer.
fn ended_on<W: Holding>(
    rt: &HostRuntime,
    words: Result<List<Bytes>, NoMemory>,
    out: &mut StdSink<W>,
) -> ExitCode
    requires { writer_held W.held out.old ≡ [] }
    ensures { EndsOver words (output_change out.old out.new)
        (writer_held W.held out.new) (exit_status result) }
{
    let alloc: Global = rt.alloc();
    let mut files = DiskFiles::new(alloc, rt);
    ended(alloc, words, &mut files, out)
}

/// What is put is gathered and written in large pieces, or each by itself where there is no memory
/// for that.
fn main(rt: HostRuntime) -> ExitCode {
    let words = words_of(rt.alloc(), env::args(&rt));
    let Ok(writer) = BufWriter::new(rt.alloc(), io::writer(&rt)) else {
        return ended_on(&rt, words, &mut StdSink::new(io::writer(&rt)));
    };
    let mut out = StdSink::new(writer);
    let code = ended_on(&rt, words, &mut out);
    let (_writer, _left) = out.into_writer().into_parts();
    code
}
