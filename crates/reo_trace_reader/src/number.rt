//! Numbers of a trace.
ghost use Rattle.std.specs.Prelude.{◌≡◌, IfErr};
ghost use Rattle.std.specs.Fmt.{decimal};
ghost use Rattle.reo_values.specs.decimals.Digits.{IsSmall, NoDigit};
ghost use Rattle.reo_trace_reader.specs.Reads.{Stood, ReadsAgain};

use crate::texts::LineFault;
use reo_values::{Unread, digits_length, number_of};

/// A number below 2^63.
pub(crate) fn number(reader: &mut Unread) -> Result<u64, LineFault>
    ensures stood { Stood IsSmall decimal result reader.old reader.new }
    ensures again { ReadsAgain IsSmall decimal NoDigit result reader.old reader.new }
    ensures fault { IfErr result (λ fault. fault ≡ LineFault.Form) }
{
    let count = digits_length(reader.left());
    match number_of(reader.take(count)) {
        Some(number) => Ok(number),
        None => Err(LineFault::Form),
    }
}
