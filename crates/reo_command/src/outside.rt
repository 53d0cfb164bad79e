//! The words of a process, and its output to the end: what programs that run commands have alike.
ghost use Rattle.std.specs.Prelude.{◌≡◌, ◌≢◌, [], map, drop, IfErr, IfOk, IsErr};
ghost use Rattle.std.specs.IoError.{error_kind};
ghost use Rattle.std.specs.String.{string_bytes};
ghost use Rattle.std.specs.Vec.Iter.{into_iter_items};
ghost use Rattle.reo_command.specs.Outside.{IsFlushed, output_change};
ghost use Rattle.reo_io.specs.Real.{writer_held};

use crate::{OUT_OF_MEMORY, Status, WRITE_FAULT};
use reo_io::{Holding, SinkFault, StdSink};
use reo_values::{Bytes, List, NoMemory};
use std::alloc::Global;
use std::env::Args;
use std::io;
use std::io::ErrorKind;

/// The words behind the first argument, which is the program's name, in their order.
fn words_behind(alloc: Global, arguments: Args) -> Result<List<Bytes>, NoMemory>
    ensures { IfOk result (λ words. words ≡ map string_bytes (drop 1 (into_iter_items arguments))) }
{
    let mut words = List::new(alloc);
    for word in arguments.skip(1) {
        words.push(Bytes::from_vec(word.into_bytes()))?;
    }
    Ok(words)
}

/// The words of the command, from what the system gave. Where it gave none for another cause than
/// out of memory, there are none.
pub fn words_of(alloc: Global, given: io::Result<Args>) -> Result<List<Bytes>, NoMemory>
    ensures words { IfOk given
        (λ arguments. IfOk result
        (λ words. words ≡ map string_bytes (drop 1 (into_iter_items arguments)))) }
    ensures none { IfErr given
        (λ fault. error_kind fault ≢ ErrorKind.OutOfMemory → result ≡ Ok []) }
    ensures memory { IfErr given
        (λ fault. error_kind fault ≡ ErrorKind.OutOfMemory → IsErr result) }
{
    match given {
        Ok(arguments) => words_behind(alloc, arguments),
        Err(fault) if fault.kind() == ErrorKind::OutOfMemory => Err(NoMemory),
        Err(_) => Ok(List::new(alloc)),
    }
}

/// Has the writer give on what it holds back, and answers the status behind that: 9 where it
/// failed, unless the status was that of memory that ran out.
pub fn flushed<W: Holding>(status: Status, out: &mut StdSink<W>) -> Status
    ensures { IsFlushed (output_change out.old out.new) (writer_held W.held out.new)
        status.code result.code }
{
    match out.flush() {
        Ok(()) => status,
        Err(SinkFault::Failed) if status.code == OUT_OF_MEMORY => status,
        Err(SinkFault::Failed) => Status { code: WRITE_FAULT },
    }
}
