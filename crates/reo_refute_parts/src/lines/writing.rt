//! Writing the lines of a log.
ghost use Rattle.std.specs.Prelude.{◌≡◌, ◌++◌, ◌<◌, ◌^◌, OnOk, codes};
ghost use Rattle.std.specs.Fmt.{decimal};
ghost use Rattle.reo_refute_base.specs.Texts.{line_text, value_words, IsNumbered, IsValueNumbered};

use reo_joint_values::JointValue;
use reo_refute_base::LogLine;
use reo_values::{Bytes, NoMemory, append_number};
use std::alloc::Global;

/// A number.
fn put_number(alloc: Global, out: &mut Bytes, number: usize) -> Result<(), NoMemory>
    requires { number < 2 ^ 63 }
    ensures { OnOk result (out.new ≡ out.old ++ decimal number) }
{
    append_number(alloc, out, number as i64)
}

/// A word and a number.
fn put_word(alloc: Global, out: &mut Bytes, word: &[u8], number: usize) -> Result<(), NoMemory>
    requires { number < 2 ^ 63 }
    ensures { OnOk result (out.new ≡ out.old ++ word.now ++ decimal number) }
{
    out.append(word)?;
    put_number(alloc, out, number)
}

/// A value.
fn put_value(alloc: Global, out: &mut Bytes, value: JointValue) -> Result<(), NoMemory>
    requires { IsValueNumbered value }
    ensures { OnOk result (out.new ≡ out.old ++ value_words value) }
{
    match value {
        JointValue::Flow(number) => put_word(alloc, out, b"f ", number as usize),
        JointValue::RG => out.append(b"rg"),
        JointValue::GR => out.append(b"gr"),
        JointValue::GG => out.append(b"gg"),
        JointValue::Jam => out.append(b"jam"),
    }
}

/// A line without its line feed.
fn put_words(alloc: Global, out: &mut Bytes, line: LogLine) -> Result<(), NoMemory>
    requires { IsNumbered line }
    ensures { OnOk result (out.new ++ codes "\n" ≡ out.old ++ line_text line) }
{
    match line {
        LogLine::At(place) => put_word(alloc, out, b"at ", place),
        LogLine::Drop(joint, value, side) => {
            put_word(alloc, out, b"drop ", joint)?;
            out.push(b' ')?;
            put_value(alloc, out, value)?;
            put_word(alloc, out, b" ", side)
        }
        LogLine::Empty(joint) => put_word(alloc, out, b"empty ", joint),
        LogLine::Split(joint) => put_word(alloc, out, b"split ", joint),
    }
}

/// A line with its line feed, behind what was there. `NoMemory` is out of memory; then bytes of
/// the line may stand there.
pub fn put_line(alloc: Global, out: &mut Bytes, line: LogLine) -> Result<(), NoMemory>
    requires { IsNumbered line }
    ensures { OnOk result (out.new ≡ out.old ++ line_text line) }
{
    put_words(alloc, out, line)?;
    out.push(b'\n')
}
