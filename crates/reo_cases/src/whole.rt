//! Cases that write much.
use crate::files::files_of;
use crate::lines::{count_of, last_of};
use crate::words_of;
use reo_io::{MemoryFiles, StdSink, SureSink, SureSource, put_all};
use reo_top::reo;
use reo_values::{Bytes, List, NoMemory};
use std::alloc::Global;
use std::io::{self, ErrorKind};

/// The most bytes that a case writes.
const MOST_WRITTEN: usize = 16_777_216;

/// What a case has written, and its status.
#[derive(Drop)]
pub(crate) struct Whole {
    pub(crate) text: Bytes,
    pub(crate) status: u8,
}

/// What the command has written over these objects, and its status.
fn written_over(
    alloc: Global,
    words: &List<Bytes>,
    files: &mut MemoryFiles,
    source: &mut SureSource,
    sink: &mut SureSink,
) -> Result<Whole, NoMemory> {
    let status = reo(alloc, words, files, source, sink).code;
    let text = Bytes::from_slice(alloc, sink.bytes())?;
    Ok(Whole { text, status })
}

/// The command over files, events and output in memory, with room for so many bytes.
pub(crate) fn answer_of(
    alloc: Global,
    words: &List<Bytes>,
    mut files: MemoryFiles,
    events: Bytes,
    room: usize,
) -> Result<Whole, NoMemory> {
    let mut source = SureSource::new(alloc, events)?;
    let mut sink = SureSink::new(alloc, room)?;
    written_over(alloc, words, &mut files, &mut source, &mut sink)
}

/// The command on a case with nothing to hear, whose file `above` has these bytes.
fn whole_of(rt: &HostRuntime, line: &str, above: &[u8]) -> Result<Whole, NoMemory> {
    let alloc: Global = rt.alloc();
    let words = words_of(alloc, line)?;
    let files = files_of(rt, words.as_slice(), b"above", above)?;
    answer_of(alloc, &words, files, Bytes::new(alloc), MOST_WRITTEN)
}

/// Shows a text.
pub(crate) fn show_text(rt: &HostRuntime, text: &[u8]) -> io::Result<()> {
    match put_all(text, &mut StdSink::new(io::writer(rt))) {
        Ok(()) => Ok(()),
        Err(_) => Err(ErrorKind::WriteZero.into()),
    }
}

/// Shows how many lines a text has, and the last of them.
fn show_last(rt: &HostRuntime, text: &[u8]) -> io::Result<()> {
    let count = count_of(text);
    println!(rt; "{count} lines, and this is the last:")?;
    show_text(rt, last_of(text))
}

/// Shows one case that writes much, and answers what it has written.
pub(crate) fn show_whole(rt: &HostRuntime, line: &str, above: &[u8]) -> io::Result<Bytes> {
    match whole_of(rt, line, above) {
        Ok(whole) => {
            show_last(rt, whole.text.as_slice())?;
            println!(rt; "= {}", whole.status)?;
            Ok(whole.text)
        }
        Err(NoMemory) => Err(ErrorKind::OutOfMemory.into()),
    }
}
