//! The one assertion of all tests.
use std::process::Abort;

/// The test stops where the answer is no. The line names the case.
pub fn is(rt: &impl Abort, answer: bool, line: &str) {
    assert!(rt; answer, "{line}");
}
