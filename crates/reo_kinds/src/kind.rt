//! The primitives.
ghost use Rattle.std.specs.Prelude.{◌≡◌, ◌≤◌, ◌↔◌, IsTrue, true, false, None, Some};
ghost use Rattle.reo_values.specs.Kind.{IsIn};
ghost use Rattle.reo_exprs.specs.Typing.{IsTyped};
ghost use Rattle.reo_kinds.specs.Items.{offer_fits};
ghost use Rattle.reo_kinds.specs.Predicates.{IsPredicate, IsTyped-prop};

use reo_buffers::Buffer;
use reo_exprs::Expr;
use reo_net_base::Branches;
use reo_values::{Kindred, Value};

/// A primitive: a port, a channel, or what joins several ends at one node.
#[derive(Drop)]
pub enum Kind {
    /// Where a component writes items into the circuit.
    Writer(WriterPort),
    /// Where a component takes items out of the circuit.
    Taker(TakerPort),
    /// A channel whose two ends flow together.
    Sync,
    /// A channel that loses an item exactly where its sink end cannot flow.
    Lossy,
    /// A channel with two source ends that flow together.
    SyncDrain,
    /// A channel with two source ends of which one flows at a time.
    AsyncDrain,
    /// A channel that keeps items, and gives the one that came first. It takes none in while full.
    Store(Buffer),
    /// A channel that keeps items, and gives the one that came first. While full it loses that one
    /// for an item that comes in.
    Shift(Buffer),
    /// A channel that holds an item, gives it again and again, and takes another in in its place.
    Variable(Option<Value>),
    /// A channel whose two ends flow together so many times more.
    Quota(u32),
    /// A channel that passes the items on for which its expression is true, and loses all others.
    Filter(FilterRule),
    /// A channel that gives its expression's value on the item that it takes.
    Map(MapRule),
    /// A node's inputs, of which one flows at a time, with its output.
    Merger(Branches),
    /// A node's input with its outputs, which all flow together.
    Replicator(Branches),
}

/// A port where items of a type are written, with the pending offer.
#[derive(Drop)]
pub struct WriterPort {
    pub kindred: Kindred,
    pub offer: Option<Value>,
    /// The offer is of the type.
    pub ghost fitting: { offer_fits offer kindred ≡ true },
}

/// A port where items are taken, and whether a take is pending.
#[derive(Drop)]
pub struct TakerPort {
    pub pending: bool,
}

/// A filter's expression, and the type of the items at its source end.
#[derive(Drop)]
pub struct FilterRule {
    pub of: Kindred,
    pub expr: Expr,
    /// The expression's type is that of truth values, where `it` has the source end's type.
    pub ghost typed: { IsPredicate expr of },
}

/// A map's expression, and the type of the items at its source end.
#[derive(Drop)]
pub struct MapRule {
    pub of: Kindred,
    pub expr: Expr,
    /// The expression has a type, where `it` has the source end's type.
    pub ghost typed: { IsTyped expr of } by { IsTyped-prop of-code expr of },
}

impl WriterPort {
    /// A port for items of this type, with no offer pending.
    pub fn new(kindred: Kindred) -> Self
        ensures kindred { result.kindred ≡ kindred }
        ensures offer { result.offer ≡ None }
    {
        WriterPort {
            kindred,
            offer: None,
        }
    }

    /// A port for items of this type, with this item of the type offered.
    pub fn offering(kindred: Kindred, item: Value) -> Self
        requires { IsIn item kindred }
        ensures kindred { result.kindred ≡ kindred }
        ensures offer { result.offer ≡ Some item }
    {
        WriterPort {
            kindred,
            offer: Some(item),
        }
    }
}

impl TakerPort {
    /// A port with no take pending.
    pub fn new() -> Self
        ensures { result.pending ≡ false }
    {
        TakerPort { pending: false }
    }
}

impl FilterRule {
    /// A filter of items of this type by this expression.
    pub fn new(of: Kindred, expr: Expr) -> Self
        requires { IsPredicate expr of }
        ensures of { result.of ≡ of }
        ensures expr { result.expr ≡ expr }
    {
        FilterRule { of, expr }
    }
}

impl MapRule {
    /// A map of items of this type by this expression.
    pub fn new(of: Kindred, expr: Expr) -> Self
        requires { IsTyped expr of }
        ensures of { result.of ≡ of }
        ensures expr { result.expr ≡ expr }
    {
        MapRule { of, expr }
    }
}
