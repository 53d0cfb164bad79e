//! Items.
ghost use Rattle.std.specs.Prelude.{◌≡◌, ◌↔◌, Contains, IfOk, IsTrue};

use crate::{Bytes, NoMemory, Shared};
use std::alloc::Global;

/// An item that flows through a connector. Texts and pairs are shared: however many copies of one
/// there are, its bytes and its two items lie in memory once.
#[cycle(value)]
#[derive(Drop)]
pub enum Value {
    /// The one item of the type unit.
    Unit,
    /// A truth value.
    Bool(bool),
    /// A whole number.
    Int(i64),
    /// The name at this place, from 0, in its type's list of names.
    Sym(u16),
    /// A text of printable bytes.
    Text(Shared<Bytes>),
    /// Two items.
    Pair(Shared<Couple>),
}

/// The two items of a pair.
#[cycle(value)]
#[derive(Drop)]
pub struct Couple {
    pub left: Value,
    pub right: Value,
}

/// Whether two items are equal. This takes no memory.
pub fn same_item(a: &Value, b: &Value) -> bool
    ensures { IsTrue result ↔ (a.now ≡ b.now) }
{
    match (a, b) {
        (Value::Unit, Value::Unit) => true,
        (Value::Bool(x), Value::Bool(y)) => *x == *y,
        (Value::Int(x), Value::Int(y)) => *x == *y,
        (Value::Sym(x), Value::Sym(y)) => *x == *y,
        (Value::Text(x), Value::Text(y)) => x.get().as_slice() == y.get().as_slice(),
        (Value::Pair(x), Value::Pair(y)) => {
            let (x, y) = (x.get(), y.get());
            same_item(&x.left, &y.left) && same_item(&x.right, &y.right)
        }
        _ => false,
    }
}

/// Whether an item is in a list. This takes no memory.
pub fn is_among(items: &[Value], item: &Value) -> bool
    ensures { IsTrue result ↔ Contains items.now item.now }
{
    for other in items {
        if same_item(other, item) {
            return true;
        }
    }
    false
}

/// An equal item. Its text, or its two items, are shared with the first, so that this takes no
/// memory: `NoMemory` means that more share them than can be counted.
pub fn copy(item: &Value) -> Result<Value, NoMemory>
    ensures { IfOk result (λ made. made ≡ item.now) }
{
    match item {
        Value::Unit => Ok(Value::Unit),
        Value::Bool(truth) => Ok(Value::Bool(*truth)),
        Value::Int(number) => Ok(Value::Int(*number)),
        Value::Sym(place) => Ok(Value::Sym(*place)),
        Value::Text(bytes) => Ok(Value::Text(bytes.share()?)),
        Value::Pair(couple) => Ok(Value::Pair(couple.share()?)),
    }
}
