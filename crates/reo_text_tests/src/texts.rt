//! What short texts are read as.
use reo_parser::{ParseFault, parse, parse_any};
use reo_trees::{AnyProgram, Program};
use std::alloc::Global;

/// The program of a short text of either version.
pub fn any_of(alloc: Global, text: &str) -> Result<AnyProgram, ParseFault> {
    if text.len() < 65536 {
        parse_any(alloc, text.as_bytes())
    } else {
        Err(ParseFault::NoMemory)
    }
}

/// The program of a short text of version 1.
pub fn first_of(alloc: Global, text: &str) -> Result<Program, ParseFault> {
    if text.len() < 65536 {
        parse(alloc, text.as_bytes())
    } else {
        Err(ParseFault::NoMemory)
    }
}
