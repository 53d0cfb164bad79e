//! Reading the lines of a log.
ghost use Rattle.std.specs.Prelude.{◌≡◌};
ghost use Rattle.reo_refute_base.specs.Texts.{line_text, IsNumbered};
ghost use Rattle.reo_refute_parts.specs.lines.Finds.{Finds, FindsDrop};

use crate::lines::number::number_and;
use crate::lines::value::value;
use reo_refute_base::LogLine;
use reo_values::Unread;

/// The rest of a line that begins with `drop `.
fn dropped(reader: &mut Unread) -> Option<LogLine>
    ensures { FindsDrop result reader.old reader.new }
{
    match number_and(reader, b' ') {
        None => None,
        Some(joint) => match value(reader) {
            None => None,
            Some(value) => match number_and(reader, b'\n') {
                None => None,
                Some(side) => Some(LogLine::Drop(joint, value, side)),
            },
        },
    }
}

/// The line that stands next, with its line feed, if one of the four forms stands there, with
/// numbers below 2^63. Where none does, what is left after it is not said.
pub fn line(reader: &mut Unread) -> Option<LogLine>
    ensures { Finds IsNumbered line_text result reader.old reader.new }
{
    if reader.word(b"drop ") {
        return dropped(reader);
    }
    if reader.word(b"at ") {
        let Some(place) = number_and(reader, b'\n') else {
            return None;
        };
        return Some(LogLine::At(place));
    }
    if reader.word(b"empty ") {
        let Some(joint) = number_and(reader, b'\n') else {
            return None;
        };
        return Some(LogLine::Empty(joint));
    }
    if !reader.word(b"split ") {
        return None;
    }
    let Some(joint) = number_and(reader, b'\n') else {
        return None;
    };
    Some(LogLine::Split(joint))
}
