//! A text of version 2, and the text that it stands for, or its refusal.
use crate::expand_tests::checks::is;
use reo_expand::{ExpandFault, expand};
use reo_parser::parse_any;
use reo_syntax::print;
use reo_trees::{AnyProgram, Program, ProgramTwo};
use std::alloc::Global;
use std::process::Abort;

/// What a text of version 2 stands for, as a text, or its refusal.
pub enum Answer {
    /// The canonical text of its expansion.
    Text(&'static str),
    Unbound(u32, &'static str),
    Index(u32),
    Number(u32),
    TooMany,
    NoMemory,
}

/// A text, and what it stands for.
pub struct Row(pub &'static str, pub Answer);

/// The program of version 2 that a text says.
pub fn program_of(alloc: Global, text: &[u8]) -> Option<ProgramTwo> {
    if text.len() >= 4_294_967_296 {
        return None;
    }
    match parse_any(alloc, text) {
        Ok(AnyProgram::Two(program)) => Some(program),
        _ => None,
    }
}

/// Whether the program has this canonical text.
pub fn is_text(alloc: Global, program: &Program, wanted: &str) -> bool {
    match print(alloc, program) {
        Ok(text) => text.as_slice() == wanted.as_bytes(),
        Err(_) => false,
    }
}

/// Whether it is this refusal.
fn is_refusal(fault: &ExpandFault, wanted: &Answer) -> bool {
    match (fault, wanted) {
        (ExpandFault::Unbound { line, name }, Answer::Unbound(at, of)) => {
            *line == *at && name.as_slice() == of.as_bytes()
        }
        (ExpandFault::Index { line }, Answer::Index(at)) => *line == *at,
        (ExpandFault::Number { line }, Answer::Number(at)) => *line == *at,
        (ExpandFault::TooMany, Answer::TooMany) => true,
        (ExpandFault::NoMemory, Answer::NoMemory) => true,
        _ => false,
    }
}

/// Whether the text stands for what is wanted.
pub fn stands_for(alloc: Global, text: &[u8], wanted: &Answer) -> bool {
    let Some(program) = program_of(alloc, text) else {
        return false;
    };
    match expand(alloc, &program) {
        Ok(program) => match wanted {
            Answer::Text(text) => is_text(alloc, &program, text),
            _ => false,
        },
        Err(fault) => is_refusal(&fault, wanted),
    }
}

/// Each text stands for what its row says.
pub fn all_stand_for(rt: &impl Abort, alloc: Global, rows: &[Row]) {
    for Row(text, wanted) in rows {
        is(rt, stands_for(alloc, text.as_bytes(), wanted), text);
    }
}
