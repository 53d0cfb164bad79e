//! Values of a log.
ghost use Rattle.std.specs.Prelude.{◌≡◌, ◌++◌, ◌∷◌, []};
ghost use Rattle.reo_refute_base.specs.Texts.{value_words, IsValueNumbered};
ghost use Rattle.reo_refute_parts.specs.lines.Finds.{Finds};

use crate::lines::number::number_and;
use reo_joint_values::JointValue;
use reo_values::Unread;

/// A value and the space behind it.
pub(crate) fn value(reader: &mut Unread) -> Option<JointValue>
    ensures { Finds IsValueNumbered (λ v. value_words v ++ 32 ∷ []) result reader.old reader.new }
{
    if reader.word(b"rg ") {
        return Some(JointValue::RG);
    }
    if reader.word(b"gr ") {
        return Some(JointValue::GR);
    }
    if reader.word(b"gg ") {
        return Some(JointValue::GG);
    }
    if reader.word(b"jam ") {
        return Some(JointValue::Jam);
    }
    if !reader.word(b"f ") {
        return None;
    }
    let Some(item) = number_and(reader, b' ') else {
        return None;
    };
    if item < 1 << 32 {
        Some(JointValue::Flow(item as u32))
    } else {
        None
    }
}
