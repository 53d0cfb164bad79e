//! Why an expression has no type.
use reo_values::NoMemory;

/// Why an expression has no type.
#[derive(Clone, Copy, Debug, PartialEq, Eq)]
pub enum TypeFault {
    /// A part of it is of a kind that does not fit where it stands.
    Mistyped,
    /// A number in it may leave -10^18 to 10^18, a divisor may be below 1, or a text in it has
    /// more than 1,024 bytes.
    Range,
    /// Out of memory.
    NoMemory,
}
