//! The primitives that channels are.
ghost use Rattle.std.specs.Prelude.{◌≡◌, ◌≤◌, List, IfOk, IfSome, Some, is_some, take, length};
ghost use Rattle.std.specs.List.{All};
ghost use Rattle.std.specs.Option.{option_copied};
ghost use Rattle.reo_buffers.specs.Stored.{stored};
ghost use Rattle.reo_rules.specs.literals.Items.{items_of, HasFewNames};
ghost use Rattle.reo_rules.specs.Types.{Typed};
ghost use Rattle.reo_flat.specs.ChannelKinds.{filter_kind, map_kind, channel_kind};
ghost use Rattle.reo_unfold.specs.Known.{AreTypes, shape_type, is_truth};
ghost use Rattle.reo_exprs.specs.Typing.{type_of_expr};
ghost use Rattle.reo_unfold.specs.Fits.{IsFew, ChannelFits};

use crate::exprs::expr_of;
use crate::types::{NamedTypes, kindred_of};
use reo_buffers::Buffer;
use reo_exprs::{Expr, TypeFault, type_of};
use reo_kinds::{FilterRule, Kind, MapRule};
use reo_rules::{item_of, items_of};
use reo_trees::{Channel, Literal, Shape};
use reo_values::{Kindred, NoMemory};
use std::alloc::Global;
use std::slice;

/// The type of a node that is declared with this type, or `unit` where it is not declared.
fn node_type(
    alloc: Global,
    types: &NamedTypes,
    known: usize,
    of: Option<&Shape>,
) -> Result<Kindred, NoMemory>
    requires few { All HasFewNames types.now.kindreds }
    requires shape { IfSome of (λ shape. IsFew shape.now) }
    ensures is { (ts : List Typed) → AreTypes ts types.now → IfOk result (λ made. made
        ≡ shape_type (take known ts) (option_copied of.entry)) }
    ensures few { IfOk result HasFewNames }
{
    match of {
        Some(shape) => kindred_of(alloc, types, known, shape),
        None => Ok(Kindred::Unit),
    }
}

/// A buffer of this size with the items that literals are.
fn store(alloc: Global, size: usize, of: &Kindred, held: &[Literal]) -> Result<Buffer, NoMemory>
    requires some { 1 ≤ size }
    requires few { size ≤ 1024 }
    requires fits { length held.now ≤ size }
    requires names { HasFewNames of.now }
    ensures { IfOk result (λ made. made ≡ stored size (items_of of.now held.now)) }
{
    let items = items_of(alloc, of, held)?;
    Buffer::with(alloc, size, items)
}

/// Whether the type of an expression is that of truth values.
fn is_predicate(alloc: Global, expr: &Expr, of: &Kindred) -> Result<bool, NoMemory>
    ensures { IfOk result (λ test. test ≡ is_truth (type_of_expr expr.now of.now)) }
{
    match type_of(alloc, expr, of) {
        Ok(kindred) => Ok(matches!(kindred, Kindred::Bool)),
        Err(TypeFault::NoMemory) => Err(NoMemory),
        Err(TypeFault::Mistyped) => Ok(false),
        Err(TypeFault::Range) => Ok(false),
    }
}

/// Whether an expression has a type.
fn is_typed(alloc: Global, expr: &Expr, of: &Kindred) -> Result<bool, NoMemory>
    ensures { IfOk result (λ test. test ≡ is_some (type_of_expr expr.now of.now)) }
{
    match type_of(alloc, expr, of) {
        Ok(_) => Ok(true),
        Err(TypeFault::NoMemory) => Err(NoMemory),
        Err(TypeFault::Mistyped) => Ok(false),
        Err(TypeFault::Range) => Ok(false),
    }
}

/// A filter by an expression whose type is that of truth values.
fn filter(alloc: Global, of: Kindred, expr: Expr) -> Result<Kind, NoMemory>
    ensures { IfOk result (λ kind. kind ≡ filter_kind of (Some expr)) }
{
    if is_predicate(alloc, &expr, &of)? {
        Ok(Kind::Filter(FilterRule::new(of, expr)))
    } else {
        Ok(Kind::Sync)
    }
}

/// A map by an expression that has a type.
fn map(alloc: Global, of: Kindred, expr: Expr) -> Result<Kind, NoMemory>
    ensures { IfOk result (λ kind. kind ≡ map_kind of (Some expr)) }
{
    if is_typed(alloc, &expr, &of)? {
        Ok(Kind::Map(MapRule::new(of, expr)))
    } else {
        Ok(Kind::Sync)
    }
}

/// The primitive of a channel whose first node is declared with this type, by the first so many
/// types. `NoMemory`: out of memory.
pub(crate) fn channel_kind(
    alloc: Global,
    types: &NamedTypes,
    known: usize,
    of: Option<&Shape>,
    channel: &Channel,
) -> Result<Kind, NoMemory>
    requires fits { ChannelFits channel.now }
    requires few { All HasFewNames types.now.kindreds }
    requires shape { IfSome of (λ shape. IsFew shape.now) }
    ensures { (ts : List Typed) → AreTypes ts types.now → IfOk result (λ made. made ≡ channel_kind
        (take known ts) (shape_type (take known ts) (option_copied of.entry)) channel.now) }
{
    match channel {
        Channel::Sync => Ok(Kind::Sync),
        Channel::Lossy => Ok(Kind::Lossy),
        Channel::SyncDrain => Ok(Kind::SyncDrain),
        Channel::AsyncDrain => Ok(Kind::AsyncDrain),
        Channel::Fifo1(None) => Ok(Kind::Store(Buffer::new(alloc, 1)?)),
        Channel::Fifo1(Some(literal)) => {
            let of = node_type(alloc, types, known, of)?;
            Ok(Kind::Store(store(alloc, 1, &of, slice::from_ref(literal))?))
        }
        Channel::Fifo(size, held) => {
            let of = node_type(alloc, types, known, of)?;
            Ok(Kind::Store(store(alloc, *size as usize, &of, held.as_slice())?))
        }
        Channel::Shift(size, held) => {
            let of = node_type(alloc, types, known, of)?;
            Ok(Kind::Shift(store(alloc, *size as usize, &of, held.as_slice())?))
        }
        Channel::Variable(None) => Ok(Kind::Variable(None)),
        Channel::Variable(Some(literal)) => {
            let of = node_type(alloc, types, known, of)?;
            Ok(Kind::Variable(item_of(alloc, &of, literal)?))
        }
        Channel::Quota(number) => Ok(Kind::Quota(*number)),
        Channel::Filter(term) => {
            let Some(expr) = expr_of(alloc, types, known, &term.form)? else {
                return Ok(Kind::Sync);
            };
            filter(alloc, node_type(alloc, types, known, of)?, expr)
        }
        Channel::Map(term) => {
            let Some(expr) = expr_of(alloc, types, known, &term.form)? else {
                return Ok(Kind::Sync);
            };
            map(alloc, node_type(alloc, types, known, of)?, expr)
        }
    }
}
