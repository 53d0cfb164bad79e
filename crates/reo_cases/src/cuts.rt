//! Cases of a text that is cut behind each of its bytes.
use crate::files::{bytes_of, files_of};
use crate::lines::{count_of, shared_of};
use crate::whole::{Whole, answer_of, show_text};
use crate::{events_of, parts_of, words_of};
use reo_io::Named;
use reo_values::{Bytes, List, NoMemory};
use std::alloc::Global;
use std::io::{self, ErrorKind};

/// The most bytes that a front is answered with.
const MOST_WRITTEN: usize = 65_536;

/// The words of a case, and the text that is cut; that of events has no name.
#[derive(Drop)]
struct Case {
    words: List<Bytes>,
    text: Named,
}

/// Fronts that follow each other and have one answer, by the lengths of the first and the last.
#[derive(Drop)]
struct Fronts {
    first: usize,
    last: usize,
    answer: Whole,
}

/// Bytes without a name.
fn nameless(alloc: Global, bytes: Bytes) -> Named {
    let name = Bytes::new(alloc);
    Named { name, bytes }
}

/// The last file that words name, or where they name none an empty text.
fn file_of(rt: &HostRuntime, words: &[Bytes]) -> Result<Named, NoMemory> {
    let alloc: Global = rt.alloc();
    let mut text = nameless(alloc, Bytes::new(alloc));
    for word in words {
        if let Some(bytes) = bytes_of(rt, word.as_slice())? {
            let name = word.copy(alloc)?;
            text = Named { name, bytes };
        }
    }
    Ok(text)
}

/// The case of a line.
fn case_of(rt: &HostRuntime, line: &str) -> Result<Case, NoMemory> {
    let alloc: Global = rt.alloc();
    let (line, events) = parts_of(line);
    let words = words_of(alloc, line)?;
    let text = if events.is_empty() {
        file_of(rt, words.as_slice())?
    } else {
        nameless(alloc, events_of(alloc, events)?)
    };
    Ok(Case { words, text })
}

/// What the command answers to the front of so many bytes.
fn answer_to(rt: &HostRuntime, case: &Case, count: usize) -> Result<Whole, NoMemory> {
    let alloc: Global = rt.alloc();
    let text = case.text.bytes.as_slice();
    let front = &text[..count.min(text.len())];
    let files = files_of(rt, case.words.as_slice(), case.text.name.as_slice(), front)?;
    let events = Bytes::from_slice(alloc, front)?;
    answer_of(alloc, &case.words, files, events, MOST_WRITTEN)
}

/// One front, with its answer.
fn front_of(count: usize, answer: Whole) -> Fronts {
    Fronts {
        first: count,
        last: count,
        answer,
    }
}

/// Whether two answers are the same.
fn same_answer(one: &Whole, other: &Whole) -> bool {
    one.status == other.status && one.text.as_slice() == other.text.as_slice()
}

/// All fronts of a case, with their answers.
fn fronts_of(rt: &HostRuntime, case: &Case) -> Result<List<Fronts>, NoMemory> {
    let mut all = List::new(rt.alloc());
    let mut fronts = front_of(0, answer_to(rt, case, 0)?);
    for count in 1..=case.text.bytes.len() {
        let answer = answer_to(rt, case, count)?;
        if same_answer(&fronts.answer, &answer) {
            fronts.last = count;
        } else {
            all.push(fronts)?;
            fronts = front_of(count, answer);
        }
    }
    all.push(fronts)?;
    Ok(all)
}

/// Shows the answer to some fronts, without the lines that the fronts above had too.
fn show_fronts(rt: &HostRuntime, fronts: &Fronts, above: &[u8]) -> io::Result<()> {
    let text = fronts.answer.text.as_slice();
    let shared = shared_of(above, text);
    let from = count_of(&text[..shared]) + 1;
    print!(rt;
        "{}..{} = {} from {from}: ",
        fronts.first, fronts.last, fronts.answer.status
    )?;
    show_text(rt, &text[shared..])
}

/// The fronts of the case of a line.
fn fronts_for(rt: &HostRuntime, line: &str) -> Result<List<Fronts>, NoMemory> {
    let case = case_of(rt, line)?;
    fronts_of(rt, &case)
}

/// Shows what the command answers to each front of the text of a case.
pub(crate) fn show_cuts(rt: &HostRuntime, line: &str) -> io::Result<()> {
    match fronts_for(rt, line) {
        Ok(all) => {
            let mut above: &[u8] = b"";
            for fronts in all.as_slice() {
                show_fronts(rt, fronts, above)?;
                above = fronts.answer.text.as_slice();
            }
            Ok(())
        }
        Err(NoMemory) => Err(ErrorKind::OutOfMemory.into()),
    }
}
