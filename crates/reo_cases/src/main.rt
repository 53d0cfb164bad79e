//! The command on each case of the input: a case a line, its words with one blank between each two;
//! two blanks have an empty word between them, and an empty line has no words. Behind the line,
//! `> ..`, stands what the command writes, and then its status, `= ..`. The files that cases name
//! are those of `data/`. Behind ` < ` stand the events of a case, each `;` for a line feed. A line
//! that begins with `#` says what the cases below it show.
//!
//! Of a case behind `~ ` stands only how many lines the command writes, and the last of them. Such
//! cases write much; the file `above` of such a case is what the one before it has written.
//!
//! Of a case behind `/ ` the last file that it names, or its events where it has some, is cut
//! behind each of its bytes. Behind the line stands what the command writes to each front, those
//! that follow each other and have one answer together: `7..13 = 5 from 1: ..` for the fronts of 7
//! to 13 bytes, with their status; lines that the fronts above had too are left out at the front,
//! and the number of the first one that is not stands behind `from`.
#![tactic(auto)]

mod cuts;
mod files;
mod lines;
mod whole;

use crate::cuts::show_cuts;
use crate::whole::show_whole;
use reo_io::{DiskFiles, StdSink, SureSource};
use reo_top::reo;
use reo_values::{Bytes, List, NoMemory};
use std::alloc::Global;
use std::io::{self, ErrorKind};

/// The words of a case.
pub(crate) fn words_of(alloc: Global, line: &str) -> Result<List<Bytes>, NoMemory> {
    let mut words = List::new(alloc);
    if !line.is_empty() {
        for word in line.split(' ') {
            words.push(Bytes::from_slice(alloc, word.as_bytes())?)?;
        }
    }
    Ok(words)
}

/// The bytes of the events of a case.
pub(crate) fn events_of(alloc: Global, events: &str) -> Result<Bytes, NoMemory> {
    let mut bytes = Bytes::new(alloc);
    for byte in events.as_bytes() {
        bytes.push(if *byte == b';' { b'\n' } else { *byte })?;
    }
    Ok(bytes)
}

/// The words of a case, and its events.
pub(crate) fn parts_of(line: &str) -> (&str, &str) {
    match line.split_once(" < ") {
        Some(parts) => parts,
        None => (line, ""),
    }
}

/// The status of the command on a case, over the system's files and output, and the events of the
/// case.
fn status_of(rt: &HostRuntime, line: &str) -> Result<u8, NoMemory> {
    let alloc: Global = rt.alloc();
    let (words, events) = parts_of(line);
    let words = words_of(alloc, words)?;
    let mut files = DiskFiles::new(alloc, rt);
    let mut source = SureSource::new(alloc, events_of(alloc, events)?)?;
    let mut sink = StdSink::new(io::writer(rt));
    Ok(reo(alloc, &words, &mut files, &mut source, &mut sink).code)
}

/// Shows one case.
fn show(rt: &HostRuntime, line: &str) -> io::Result<()> {
    println!(rt; "> {line}")?;
    match status_of(rt, line) {
        Ok(status) => println!(rt; "= {status}"),
        Err(NoMemory) => Err(ErrorKind::OutOfMemory.into()),
    }
}

/// Shows one line of the input. Of a case that writes much, what it has written takes the place of
/// `above`.
fn show_line(rt: &HostRuntime, line: &str, above: &mut Bytes) -> io::Result<()> {
    if line.starts_with('#') {
        println!(rt; "{line}")
    } else if let Some(case) = line.strip_prefix("~ ") {
        println!(rt; "> {line}")?;
        *above = show_whole(rt, case, above.as_slice())?;
        Ok(())
    } else if let Some(case) = line.strip_prefix("/ ") {
        println!(rt; "> {line}")?;
        show_cuts(rt, case)
    } else {
        show(rt, line)
    }
}

fn main(rt: HostRuntime) -> io::Result<()> {
    let mut above = Bytes::new(rt.alloc());
    for line in rt.lines(rt.alloc()) {
        let line = line?;
        show_line(&rt, line.as_str(), &mut above)?;
    }
    Ok(())
}
