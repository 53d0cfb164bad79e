//! The drawing command on each case of the input: a case a line, its words with one blank between
//! each two; two blanks have an empty word between them, and an empty line has no words. Behind the
//! line, `> ..`, stands what the command writes, and then its status, `= ..`. The files that cases
//! name are those of `data/`. A line that begins with `#` says what the cases below it show.
#![tactic(auto)]

use reo_draw_command::draw;
use reo_io::{DiskFiles, StdSink};
use reo_values::{Bytes, List, NoMemory};
use std::alloc::Global;
use std::io::{self, ErrorKind};

/// The words of a case.
fn words_of(alloc: Global, line: &str) -> Result<List<Bytes>, NoMemory> {
    let mut words = List::new(alloc);
    if !line.is_empty() {
        for word in line.split(' ') {
            words.push(Bytes::from_slice(alloc, word.as_bytes())?)?;
        }
    }
    Ok(words)
}

/// The status of the command on a case, over the system's files and output.
fn status_of(rt: &HostRuntime, line: &str) -> Result<u8, NoMemory> {
    let alloc: Global = rt.alloc();
    let words = words_of(alloc, line)?;
    let mut files = DiskFiles::new(alloc, rt);
    let mut sink = StdSink::new(io::writer(rt));
    Ok(draw(alloc, &words, &mut files, &mut sink).code)
}

/// Shows one case.
fn show(rt: &HostRuntime, line: &str) -> io::Result<()> {
    println!(rt; "> {line}")?;
    match status_of(rt, line) {
        Ok(status) => println!(rt; "= {status}"),
        Err(NoMemory) => Err(ErrorKind::OutOfMemory.into()),
    }
}

fn main(rt: HostRuntime) -> io::Result<()> {
    for line in rt.lines(rt.alloc()) {
        let line = line?;
        let line = line.as_str();
        if line.starts_with('#') {
            println!(rt; "{line}")?;
        } else {
            show(&rt, line)?;
        }
    }
    Ok(())
}
