//! Items of moves.
ghost use Rattle.std.specs.Prelude.{◌≡◌, ◌==◌, ◌&&◌, ◌≤◌, length};
ghost use Rattle.reo_values.specs.Valid.{IsValid};
ghost use Rattle.reo_trace_reader.specs.Ends.{EndsMove};
ghost use Rattle.reo_trace_reader.specs.declared.item.Spot.TheVariants.{Outside};
ghost use Rattle.reo_trace_reader.specs.Fronts.{IsItem, item_text};
ghost use Rattle.reo_trace_reader.specs.ItemEnd.{after as spot_after, is_outside, bytes_of_item};
ghost use Rattle.reo_trace_reader.specs.Reads.{Stood, ReadsAgain};

use crate::texts::LineFault;
use reo_values::{Kindred, ReadFault, Unread, Value, read_value};
use std::alloc::Global;

/// Where a byte of an item stands.
#[derive(Clone, Copy, PartialEq, Eq)]
pub(crate) enum Spot {
    /// Outside of quotes.
    Outside,
    /// Between quotes.
    Inside,
    /// Between quotes, behind a backslash.
    Escaped,
}

/// Where the byte behind this one stands.
fn after(spot: Spot, byte: u8) -> Spot
    ensures { result ≡ spot_after spot byte }
{
    match spot {
        Spot::Outside if byte == b'"' => Spot::Inside,
        Spot::Outside => Spot::Outside,
        Spot::Inside if byte == b'"' => Spot::Outside,
        Spot::Inside if byte == b'\\' => Spot::Escaped,
        _ => Spot::Inside,
    }
}

/// Whether a byte is a space outside of quotes.
fn is_space(spot: Spot, byte: u8) -> bool
    ensures { result ≡ (is_outside spot && (byte == 32)) }
{
    match spot {
        Spot::Outside => byte == b' ',
        _ => false,
    }
}

/// How many bytes come before the first space outside of quotes.
fn item_length(text: &[u8]) -> usize
    ensures within { result ≤ length text.now }
    ensures length { result ≡ bytes_of_item Outside text.now }
{
    let mut spot = Spot::Outside;
    for (at, byte) in text.iter().enumerate() {
        if is_space(spot, *byte) {
            return at;
        }
        spot = after(spot, *byte);
    }
    text.len()
}

/// An item of a type, before a space.
pub(crate) fn item(
    alloc: Global,
    reader: &mut Unread,
    kindred: &Kindred,
) -> Result<Value, LineFault>
    requires { IsValid kindred.now }
    ensures stood { Stood (IsItem kindred.now) (item_text kindred.now)
        result reader.old reader.new }
    ensures again { ReadsAgain (IsItem kindred.now) (item_text kindred.now) EndsMove
        result reader.old reader.new }
{
    let count = item_length(reader.left());
    match read_value(alloc, reader.take(count), kindred) {
        Ok(item) => Ok(item),
        Err(ReadFault::NotALiteral) => Err(LineFault::Form),
        Err(ReadFault::NoMemory) => Err(LineFault::NoMemory),
    }
}
