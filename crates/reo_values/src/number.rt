//! Texts of whole numbers.
ghost use Rattle.std.specs.Prelude.{◌≡◌, IfOk, ℤ, ◌≤ℤ◌, ◌≢◌, IsErrOf};
ghost use Rattle.std.specs.Fmt.{signed_decimal};

use crate::{Bytes, NoMemory, ReadFault};
use std::alloc::Global;

/// The decimal text of a number: `-` for a negative one, no leading zero, `0` alone for zero.
/// `NoMemory` means out of memory.
pub fn number_text(alloc: Global, number: i64) -> Result<Bytes, NoMemory>
    ensures { IfOk result (λ text. text ≡ signed_decimal number) }
{
    match number.to_string(alloc) {
        Ok(text) => Ok(Bytes::from_vec(text.into_bytes())),
        Err(_) => Err(NoMemory),
    }
}

/// The number from `low` to `high` whose decimal text is exactly this: a leading zero, `+` and
/// `-0` are no part of any. `NotALiteral` comes exactly where there is none, and `NoMemory` means
/// out of memory.
pub fn read_number(alloc: Global, text: &[u8], low: i64, high: i64) -> Result<i64, ReadFault>
    ensures found { IfOk result (λ z. (low ≤ℤ z) × (z ≤ℤ high) × (text.now ≡ signed_decimal z)) }
    ensures none { IsErrOf result ReadFault.NotALiteral → (z : ℤ) → low ≤ℤ z → z ≤ℤ high
        → text.now ≢ signed_decimal z }
{
    let Ok(word) = str::from_utf8(text) else {
        return Err(ReadFault::NotALiteral);
    };
    let Ok(number) = word.parse::<i64>() else {
        return Err(ReadFault::NotALiteral);
    };
    if number < low || high < number {
        return Err(ReadFault::NotALiteral);
    }
    let again = number_text(alloc, number)?;
    if again.as_slice() == text {
        Ok(number)
    } else {
        Err(ReadFault::NotALiteral)
    }
}
