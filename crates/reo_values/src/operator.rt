//! The operators of expressions.

/// An operator with one operand.
#[derive(Clone, Copy, Debug, PartialEq, Eq)]
pub enum Unary {
    /// `!`, on truth values.
    Not,
    /// `-`, on numbers.
    Minus,
    /// `first`, the left item of a pair.
    First,
    /// `second`, the right item of a pair.
    Second,
    /// `length`, the number of bytes of a text.
    Length,
}

/// An operator with two operands.
#[derive(Clone, Copy, Debug, PartialEq, Eq)]
pub enum Binary {
    /// `||`, on truth values.
    Or,
    /// `&&`, on truth values.
    And,
    /// `==`, on items of types that join.
    Eq,
    /// `!=`, on items of types that join.
    Ne,
    /// `<`, on numbers.
    Lt,
    /// `<=`, on numbers.
    Le,
    /// `>`, on numbers.
    Gt,
    /// `>=`, on numbers.
    Ge,
    /// `+`, on numbers.
    Add,
    /// `-`, on numbers.
    Sub,
    /// `*`, on numbers.
    Mul,
    /// `/`, on numbers: towards zero.
    Div,
    /// `%`, on numbers: with the sign of its left side.
    Rem,
    /// `(x, y)`, a pair.
    Pair,
}
