//! The one assertion of the tables.
use std::process::Abort;

/// What is said where memory ends, with which a test stops.
pub const MEMORY: &str = "out of memory";

/// The test stops where the answer is no. The line names the case.
pub fn is(rt: &impl Abort, answer: bool, line: &str) {
    if !answer {
        rt.panic(line)
    }
}
