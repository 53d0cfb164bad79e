//! The token in front of what is left of a text.
ghost use Rattle.std.specs.Prelude.{◌≡◌, ◌==◌, ◌<◌, length, slice_index, true, false, IfOk, IfErr};
ghost use Rattle.reo_values.specs.Bytes.{quote, hash};
ghost use Rattle.reo_values.specs.Names.{is_digit as digit_test, is_letter as letter_test};
ghost use Rattle.reo_lexer.specs.Gaps.{is_space as space_test};
ghost use Rattle.reo_lexer.specs.Faults.{BeginsFault};
ghost use Rattle.reo_lexer.specs.Skipping.{IsFront};

use crate::bytes::{is_break, is_digit, is_letter};
use crate::parts::{digits_length, inside_of, name_length, sign_length};
use crate::words::is_reserved;
use crate::{LexFault, TokenKind};

/// The token in front.
#[derive(Clone, Copy)]
pub struct Front {
    pub kind: TokenKind,
    /// How many bytes it has.
    pub length: usize,
}

/// The most digits that a number has.
const MOST_DIGITS: usize = 18;

#[tactic(auto, using(crate::proofs::Found::word_front, crate::proofs::Found::name_front))]
fn name(left: &[u8]) -> Front
    requires { letter_test (slice_index left.now 0) ≡ true }
    ensures { IsFront result.kind result.length left.now }
{
    let length = name_length(left);
    let kind = if is_reserved(&left[..length]) {
        TokenKind::Word
    } else {
        TokenKind::Name
    };
    Front { kind, length }
}

fn number(left: &[u8], line: u32) -> Result<Front, LexFault>
    requires { digit_test (slice_index left.now 0) ≡ true }
    ensures ok { IfOk result (λ front. IsFront front.kind front.length left.now) }
    ensures err { IfErr result (λ fault. BeginsFault fault line left.now) }
{
    let length = digits_length(left);
    if length > MOST_DIGITS {
        return Err(LexFault::NumberTooLong { line });
    }
    Ok(Front {
        kind: TokenKind::Number,
        length,
    })
}

fn text(left: &[u8], line: u32) -> Result<Front, LexFault>
    requires some { 0 < length left.now }
    requires quote { slice_index left.now 0 ≡ quote }
    ensures ok { IfOk result (λ front. IsFront front.kind front.length left.now) }
    ensures err { IfErr result (λ fault. BeginsFault fault line left.now) }
{
    let rest = &left[1..];
    let inside = inside_of(rest);
    if inside.length == rest.len() || is_break(rest[inside.length]) {
        return Err(LexFault::OpenText { line });
    }
    if inside.escape || rest[inside.length] != b'"' {
        return Err(LexFault::BadByte { line });
    }
    Ok(Front {
        kind: TokenKind::Text,
        length: inside.length + 2,
    })
}

fn sign(left: &[u8], line: u32) -> Result<Front, LexFault>
    requires some { 0 < length left.now }
    requires no_letter { letter_test (slice_index left.now 0) ≡ false }
    requires no_digit { digit_test (slice_index left.now 0) ≡ false }
    requires no_quote { (slice_index left.now 0 == quote) ≡ false }
    requires no_space { space_test (slice_index left.now 0) ≡ false }
    requires no_comment { (slice_index left.now 0 == hash) ≡ false }
    ensures ok { IfOk result (λ front. IsFront front.kind front.length left.now) }
    ensures err { IfErr result (λ fault. BeginsFault fault line left.now) }
{
    let length = sign_length(left);
    if length == 0 {
        return Err(LexFault::BadByte { line });
    }
    Ok(Front {
        kind: TokenKind::Sign,
        length,
    })
}

/// The token in front of what is left on a line, or the fault there.
pub fn front_of(left: &[u8], line: u32) -> Result<Front, LexFault>
    requires some { 0 < length left.now }
    requires no_space { space_test (slice_index left.now 0) ≡ false }
    requires no_comment { (slice_index left.now 0 == hash) ≡ false }
    ensures ok { IfOk result (λ front. IsFront front.kind front.length left.now) }
    ensures err { IfErr result (λ fault. BeginsFault fault line left.now) }
{
    let first = left[0];
    if is_letter(first) {
        Ok(name(left))
    } else if is_digit(first) {
        number(left, line)
    } else if first == b'"' {
        text(left, line)
    } else {
        sign(left, line)
    }
}
