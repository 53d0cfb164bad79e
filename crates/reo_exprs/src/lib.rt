//! Expressions: their types and their values.
#![tactic(auto)]

mod expr;
mod fault;
mod interval;
mod kind;
mod kinds;
mod laws;
mod parts;
mod typing;
mod value;
mod view;

pub use expr::{Expr, ExprPair, ExprTriple};
pub use fault::TypeFault;
pub use kind::kind_of_expr;
pub use kinds::{joins, lies_inside};
pub use laws::{
    intervals_are_least, item_in_wider_type, kind_is_that_of_the_type, type_is_valid,
    types_join_by_kind, value_in_type,
};
pub use typing::type_of;
pub use value::{truth_of, value_is, value_of};
