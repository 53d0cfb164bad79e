//! Equal items, and places of items.
ghost use Rattle.std.specs.Prelude.{◌≡◌, true, false, None, Some, IfOk};
ghost use Rattle.reo_values.specs.declared.value.Value.{Value as Item};

use reo_values::{NoMemory, Value, copy};

/// An equal item, where nothing is shared for it.
#[inline(always)]
pub(crate) fn plain_copy(item: &Value) -> Option<Value>
    ensures { (made : Item) → result ≡ Some made → made ≡ item.now }
{
    match item {
        Value::Unit => Some(Value::Unit),
        Value::Bool(truth) => Some(Value::Bool(*truth)),
        Value::Int(number) => Some(Value::Int(*number)),
        Value::Sym(place) => Some(Value::Sym(*place)),
        _ => None,
    }
}

/// An equal item, made without a call where nothing is shared for it. `NoMemory` means that more
/// share it than can be counted.
#[inline(always)]
pub(crate) fn copied(item: &Value) -> Result<Value, NoMemory>
    ensures { IfOk result (λ made. made ≡ item.now) }
{
    match plain_copy(item) {
        Some(made) => Ok(made),
        None => copy(item),
    }
}

/// Lets go of what stands at a place, out of line.
#[inline(never)]
fn let_go(place: &mut Option<Value>)
    ensures { place.new ≡ None }
{
    *place = None;
}

/// Clears a place. Where nothing is shared for its item, nothing is to be let go.
#[inline(always)]
pub(crate) fn clear(place: &mut Option<Value>)
    ensures { place.new ≡ None }
{
    match place {
        Some(Value::Text(_) | Value::Pair(_)) => let_go(place),
        _ => *place = None,
    }
}

/// Puts an equal item at a place, if nothing is shared for it. The answer is whether it is put;
/// where it is not, the place stays as it is.
#[inline(always)]
pub(crate) fn put_plain(place: &mut Option<Value>, item: &Value) -> bool
    ensures put { result ≡ true → place.new ≡ Some item.now }
    ensures stays { result ≡ false → place.new ≡ place.old }
{
    match plain_copy(item) {
        Some(item) => *place = Some(item),
        None => return false,
    }
    true
}
