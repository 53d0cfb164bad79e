//! What filters and maps do with an item.
ghost use Rattle.std.specs.Prelude.{◌≡◌, ◌↔◌, IfOk, IsTrue};
ghost use Rattle.reo_kinds.specs.Rules.{accepts, image};
ghost use Rattle.reo_kinds.specs.Kinds.{lets_in};

use crate::kind::{FilterRule, Kind, MapRule};
use reo_exprs::{truth_of, value_is, value_of};
use reo_values::{NoMemory, Value, is_in};
use std::alloc::Global;

/// Whether an item is of a filter's type, and the filter's expression is true of it.
pub fn accepts(rule: &FilterRule, item: &Value) -> bool
    ensures { result ≡ accepts rule.now item.now }
{
    is_in(item, &rule.of) && truth_of(&rule.expr, &rule.of, item)
}

/// Whether a row of a kind lets an item in: a filter's row 0 what is accepted, its row 1 what is
/// not, and each other row all.
pub fn lets_in(kind: &Kind, row: usize, item: &Value) -> bool
    ensures { result ≡ lets_in kind.now row item.now }
{
    match kind {
        Kind::Filter(filter) => match row {
            0 => accepts(filter, item),
            1 => !accepts(filter, item),
            _ => true,
        },
        _ => true,
    }
}

/// What a map makes of an item: `unit`, where the item is not of the map's type. `NoMemory`: out of
/// memory.
pub fn image(alloc: Global, rule: &MapRule, item: &Value) -> Result<Value, NoMemory>
    ensures { IfOk result (λ made. made ≡ image rule.now item.now) }
{
    if is_in(item, &rule.of) {
        value_of(alloc, &rule.expr, &rule.of, item)
    } else {
        Ok(Value::Unit)
    }
}

/// Whether an item is what a map makes of another.
pub fn is_image(rule: &MapRule, item: &Value, other: &Value) -> bool
    ensures { IsTrue result ↔ (image rule.now item.now ≡ other.now) }
{
    if is_in(item, &rule.of) {
        value_is(&rule.expr, &rule.of, item, other)
    } else {
        matches!(other, Value::Unit)
    }
}
