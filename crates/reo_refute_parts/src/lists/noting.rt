//! Noting items that are new at a joint.
ghost use Rattle.std.specs.Prelude.{◌≡◌, ◌↔◌, ◌∷◌, [], IsTrue, OnOk, Contains};
ghost use Rattle.reo_refute_parts.specs.lists.Noted.{IsNoted};

use reo_values::{List, NoMemory, Value, is_among};

/// Adds an item to those that are new at a joint, unless it is there or among them.
pub(crate) fn note(old: &[Value], new: &mut List<Value>, item: Value) -> Result<(), NoMemory>
    ensures { OnOk result (IsNoted old.now new.old (item ∷ []) new.new) }
{
    if is_among(old, &item) {
        return Ok(());
    }
    if is_among(new.as_slice(), &item) {
        return Ok(());
    }
    new.push(item)
}
