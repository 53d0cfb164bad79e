//! A script that is cut behind one of its tokens.
use crate::checks::is;
use crate::reading::script_of;
use reo_lexer::{Token, lex};
use reo_script::ScriptFault;
use std::alloc::Global;

/// A script with each kind of action, of 34 tokens.
const WHOLE: &str = "component x {
write a -0 within 2; write
a 7; take b within 3;
take b; pause 4;
repeat 2 { repeat 0 {
} } }";

/// Whether the text up to the end of this token is refused in the line of the token.
fn is_cut(alloc: Global, text: &[u8], token: &Token) -> bool {
    if token.end > text.len() {
        return false;
    }
    match script_of(alloc, &text[..token.end]) {
        Err(ScriptFault::Syntax { line }) => line == token.line,
        _ => false,
    }
}

/// Whether it is refused behind each of its tokens but the last.
fn are_cut(alloc: Global, text: &[u8]) -> bool {
    if text.len() >= 65536 {
        return false;
    }
    let Ok(tokens) = lex(alloc, text) else {
        return false;
    };
    let count = tokens.len();
    let fronts = tokens.as_slice().iter().take(count.saturating_sub(1));
    let mut all = count == 34;
    for token in fronts {
        all = all && is_cut(alloc, text, token);
    }
    all
}

#[test]
fn a_cut_script_is_refused(rt: HostRuntime) {
    let text = WHOLE.as_bytes();
    is(&rt, are_cut(rt.alloc(), text), "cut");
    is(&rt, script_of(rt.alloc(), text).is_ok(), "whole");
}
