//! The parts of a text, by their lengths.
ghost use Rattle.std.specs.Prelude.{◌≡◌, ◌≤◌, ◌<◌, ◌==◌, length, drop, take, count_by, true, false};
ghost use Rattle.std.specs.List.{take_while};
ghost use Rattle.reo_values.specs.Names.{is_digit as digit_test, is_name_byte as name_test};
ghost use Rattle.reo_lexer.specs.Gaps.{lines_in as lines_of};
ghost use Rattle.reo_lexer.specs.Skipping.{behind, inside, sign_size};

use crate::bytes::{is_digit, is_escaped, is_name_byte, is_space, is_unescaped};
use crate::words::is_sign;

/// How many bytes the gap in front has.
pub fn gap_length(left: &[u8]) -> usize
    ensures within { result ≤ length left.now }
    ensures rest { drop result left.now ≡ behind false left.now }
{
    let mut in_comment = false;
    for (index, byte) in left.iter().enumerate() {
        if in_comment {
            in_comment = *byte != b'\n';
        } else if *byte == b'#' {
            in_comment = true;
        } else if !is_space(*byte) {
            return index;
        }
    }
    left.len()
}

/// How many LFs there are.
pub fn lines_in(bytes: &[u8]) -> usize
    ensures count { result ≡ lines_of bytes.now }
    ensures few { result ≤ length bytes.now }
{
    bytes.iter().filter(|byte| **byte == b'\n').count()
}

/// How many digits stand in front.
pub fn digits_length(left: &[u8]) -> usize
    ensures { result ≡ length (take_while digit_test left.now) }
{
    left.iter().take_while(|byte| is_digit(**byte)).count()
}

/// How many bytes that a name may hold stand in front.
pub fn name_length(left: &[u8]) -> usize
    ensures { result ≡ length (take_while name_test left.now) }
{
    left.iter().take_while(|byte| is_name_byte(**byte)).count()
}

/// How many bytes the longest sign in front has, 0 where there is none.
pub fn sign_length(left: &[u8]) -> usize
    ensures { result ≡ sign_size left.now }
{
    match left {
        [] => 0,
        [_] => { if is_sign(left) { 1 } else { 0 } }
        [_, _, ..] => {
            if is_sign(&left[..2]) {
                2
            } else if is_sign(&left[..1]) {
                1
            } else {
                0
            }
        }
    }
}

/// The inside of a text in quotes.
#[derive(Clone, Copy)]
pub struct Inside {
    /// How many bytes it has.
    pub length: usize,
    /// Whether it ends with a `\` that escapes what comes next.
    pub escape: bool,
}

/// The inside of a text in quotes, from the byte behind the opening quote on.
pub fn inside_of(left: &[u8]) -> Inside
    ensures within { result.length ≤ length left.now }
    ensures rest { inside false left.now
        ≡ record { escape = result.escape; left = drop result.length left.now } }
{
    let mut escape = false;
    for (index, byte) in left.iter().enumerate() {
        if escape {
            if !is_escaped(*byte) {
                return Inside {
                    length: index,
                    escape: true,
                };
            }
            escape = false;
        } else if *byte == b'\\' {
            escape = true;
        } else if !is_unescaped(*byte) {
            return Inside {
                length: index,
                escape: false,
            };
        }
    }
    Inside {
        length: left.len(),
        escape,
    }
}
