//! Types of items.
ghost use Rattle.std.specs.Prelude.{◌≡◌, ◌↔◌, IfOk, IsTrue};
ghost use Rattle.std.specs.List.{All};
ghost use Rattle.reo_values.specs.Kind.{IsIn, IsPlain};

use crate::{NoMemory, Shared, Symbols, Value};

/// A type of items. Names and pairs are shared: however many copies of a type there are, its names
/// and its two types lie in memory once.
#[cycle(kindred)]
#[derive(Drop)]
pub enum Kindred {
    /// The type with one item.
    Unit,
    /// The two truth values.
    Bool,
    /// The whole numbers from the first bound to the second, both included.
    Int(i64, i64),
    /// One item for each name.
    Sym(Shared<Symbols>),
    /// The texts of at most so many bytes, each from the space to the tilde.
    Text(u16),
    /// The pairs of an item of each of two types.
    Pair(Shared<Twins>),
}

/// The types of a pair's two items.
#[cycle(kindred)]
#[derive(Drop)]
pub struct Twins {
    pub left: Kindred,
    pub right: Kindred,
}

/// Whether all bytes are from the space to the tilde.
pub fn all_plain(bytes: &[u8]) -> bool
    ensures { IsTrue result ↔ All IsPlain bytes.now }
{
    bytes.iter().all(|byte| 32 <= *byte && *byte <= 126)
}

/// Whether an item is of a type. This takes no memory.
pub fn is_in(item: &Value, kindred: &Kindred) -> bool
    ensures { IsTrue result ↔ IsIn item.now kindred.now }
{
    match (item, kindred) {
        (Value::Unit, Kindred::Unit) => true,
        (Value::Bool(_), Kindred::Bool) => true,
        (Value::Int(number), Kindred::Int(low, high)) => *low <= *number && *number <= *high,
        (Value::Sym(place), Kindred::Sym(names)) => (*place as usize) < names.get().len(),
        (Value::Text(text), Kindred::Text(most)) => {
            let bytes = text.get();
            bytes.len() <= *most as usize && all_plain(bytes.as_slice())
        }
        (Value::Pair(x), Kindred::Pair(y)) => {
            let (x, y) = (x.get(), y.get());
            is_in(&x.left, &y.left) && is_in(&x.right, &y.right)
        }
        _ => false,
    }
}

/// An equal type. Its names, or its two types, are shared with the first, so that this takes no
/// memory: `NoMemory` means that more share them than can be counted.
pub fn copy_kindred(kindred: &Kindred) -> Result<Kindred, NoMemory>
    ensures { IfOk result (λ made. made ≡ kindred.now) }
{
    match kindred {
        Kindred::Unit => Ok(Kindred::Unit),
        Kindred::Bool => Ok(Kindred::Bool),
        Kindred::Int(low, high) => Ok(Kindred::Int(*low, *high)),
        Kindred::Sym(names) => Ok(Kindred::Sym(names.share()?)),
        Kindred::Text(most) => Ok(Kindred::Text(*most)),
        Kindred::Pair(twins) => Ok(Kindred::Pair(twins.share()?)),
    }
}
