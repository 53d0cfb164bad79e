//! Numbers of a log.
ghost use Rattle.std.specs.Prelude.{◌++◌, ◌∷◌, []};
ghost use Rattle.std.specs.Fmt.{decimal};
ghost use Rattle.reo_values.specs.decimals.Digits.{IsDigit, IsSmall};
ghost use Rattle.reo_refute_parts.specs.lines.Finds.{Finds, FindsNumber};

use reo_values::{Unread, digits_length, number_of};

/// A number below 2^63, as far as there are digits.
fn number(reader: &mut Unread) -> Option<u64>
    ensures { FindsNumber result reader.old reader.new }
{
    let count = digits_length(reader.left());
    match number_of(reader.take(count)) {
        Some(number) => Some(number),
        None => None,
    }
}

/// A number below 2^63 and this byte behind it, which is no digit.
pub(crate) fn number_and(reader: &mut Unread, byte: u8) -> Option<usize>
    requires { IsDigit byte → ⊥ }
    ensures { Finds IsSmall (λ n. decimal n ++ byte ∷ []) result reader.old reader.new }
{
    match number(reader) {
        Some(found) => {
            if reader.word(&[byte]) {
                Some(found as usize)
            } else {
                None
            }
        }
        None => None,
    }
}
