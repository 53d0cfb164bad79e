//! Expressions over an item.
use reo_values::{Binary, Boxed, Bytes, Shared, Symbols, Unary};

/// An expression over the item `it`, its names resolved.
#[cycle(expr)]
#[derive(Drop)]
pub enum Expr {
    /// The item itself.
    It,
    /// The item of the type unit.
    Unit,
    /// A truth value.
    Bool(bool),
    /// A whole number.
    Int(i64),
    /// A text of printable bytes.
    Text(Bytes),
    /// The name at this place, from 0, among the names of its type, which are shared.
    Sym(Shared<Symbols>, u16),
    /// An operator with its operand.
    One(Unary, Boxed<Expr>),
    /// An operator with its two operands.
    Two(Binary, Boxed<ExprPair>),
    /// `if`: a condition, the expression where it is true, and that where it is false.
    If(Boxed<ExprTriple>),
}

/// The operands of an operator.
#[cycle(expr)]
#[derive(Drop)]
pub struct ExprPair {
    pub left: Expr,
    pub right: Expr,
}

/// The parts of an `if`.
#[cycle(expr)]
#[derive(Drop)]
pub struct ExprTriple {
    pub condition: Expr,
    pub yes: Expr,
    pub no: Expr,
}
