//! Kinds of types, and types that join.
ghost use Rattle.std.specs.Prelude.{◌≡◌, ◌↔◌, IfOk, IsTrue, Some, None};
ghost use Rattle.reo_exprs.specs.Kinds.{kind_of, joins, join_of, LiesInside, is_within, interval_of, is_bool};

use crate::interval::{Interval, is_near};
use reo_values::{Kindred, NoMemory, Shared, Twins, copy_kindred};
use std::alloc::Global;

/// The kind of a type: the type with each bound and each length 0. `NoMemory` means out of memory.
pub fn kind_of(alloc: Global, kindred: &Kindred) -> Result<Kindred, NoMemory>
    ensures { IfOk result (λ made. made ≡ kind_of kindred.now) }
{
    match kindred {
        Kindred::Unit => Ok(Kindred::Unit),
        Kindred::Bool => Ok(Kindred::Bool),
        Kindred::Int(_, _) => Ok(Kindred::Int(0, 0)),
        Kindred::Sym(names) => Ok(Kindred::Sym(names.share()?)),
        Kindred::Text(_) => Ok(Kindred::Text(0)),
        Kindred::Pair(twins) => {
            let twins = twins.get();
            let left = kind_of(alloc, &twins.left)?;
            let right = kind_of(alloc, &twins.right)?;
            Ok(Kindred::Pair(Shared::new(alloc, Twins { left, right })?))
        }
    }
}

/// Whether two types join: their kinds are equal. This takes no memory.
pub fn joins(a: &Kindred, b: &Kindred) -> bool
    ensures { result ≡ joins a.now b.now }
{
    match (a, b) {
        (Kindred::Unit, Kindred::Unit) => true,
        (Kindred::Bool, Kindred::Bool) => true,
        (Kindred::Int(_, _), Kindred::Int(_, _)) => true,
        (Kindred::Sym(x), Kindred::Sym(y)) => x.get().same(y.get()),
        (Kindred::Text(_), Kindred::Text(_)) => true,
        (Kindred::Pair(x), Kindred::Pair(y)) => {
            let (x, y) = (x.get(), y.get());
            joins(&x.left, &y.left) && joins(&x.right, &y.right)
        }
        _ => false,
    }
}

/// The join of two types that join: the least interval that contains both, and the greater
/// length. `NoMemory` means out of memory.
pub fn join(alloc: Global, a: &Kindred, b: &Kindred) -> Result<Kindred, NoMemory>
    ensures { IfOk result (λ made. made ≡ join_of a.now b.now) }
{
    match a {
        Kindred::Int(low, high) => match b {
            Kindred::Int(low2, high2) => {
                let (low, high, low2, high2) = (*low, *high, *low2, *high2);
                Ok(Kindred::Int(low.min(low2), high.max(high2)))
            }
            _ => copy_kindred(a),
        },
        Kindred::Text(most) => match b {
            Kindred::Text(most2) => {
                let (most, most2) = (*most, *most2);
                Ok(Kindred::Text(most.max(most2)))
            }
            _ => copy_kindred(a),
        },
        Kindred::Pair(x) => match b {
            Kindred::Pair(y) => {
                let (x, y) = (x.get(), y.get());
                let left = join(alloc, &x.left, &y.left)?;
                let right = join(alloc, &x.right, &y.right)?;
                Ok(Kindred::Pair(Shared::new(alloc, Twins { left, right })?))
            }
            _ => copy_kindred(a),
        },
        _ => copy_kindred(a),
    }
}

/// Whether the first type lies inside the second: they join, and each interval and length of the
/// first lies within the second's. This takes no memory.
pub fn lies_inside(a: &Kindred, b: &Kindred) -> bool
    ensures { IsTrue result ↔ LiesInside a.now b.now }
{
    match (a, b) {
        (Kindred::Unit, Kindred::Unit) => true,
        (Kindred::Bool, Kindred::Bool) => true,
        (Kindred::Int(low, high), Kindred::Int(low2, high2)) => *low2 <= *low && *high <= *high2,
        (Kindred::Sym(x), Kindred::Sym(y)) => x.get().same(y.get()),
        (Kindred::Text(most), Kindred::Text(most2)) => *most <= *most2,
        (Kindred::Pair(x), Kindred::Pair(y)) => {
            let (x, y) = (x.get(), y.get());
            lies_inside(&x.left, &y.left) && lies_inside(&x.right, &y.right)
        }
        _ => false,
    }
}

/// Whether each bound in the type lies from -10^18 to 10^18.
pub fn is_within(kindred: &Kindred) -> bool
    ensures { result ≡ is_within kindred.now }
{
    match kindred {
        Kindred::Int(low, high) => is_near(*low) && is_near(*high),
        Kindred::Pair(twins) => {
            let twins = twins.get();
            is_within(&twins.left) && is_within(&twins.right)
        }
        _ => true,
    }
}

/// The interval of a type of numbers.
pub fn interval_of(kindred: &Kindred) -> Option<Interval>
    ensures { result ≡ interval_of kindred.now }
{
    match kindred {
        Kindred::Int(low, high) => Some(Interval {
            low: *low,
            high: *high,
        }),
        _ => None,
    }
}

/// Whether the type is that of truth values.
pub fn is_bool(kindred: &Kindred) -> bool
    ensures { result ≡ is_bool kindred.now }
{
    matches!(kindred, Kindred::Bool)
}
