//! Laws of expressions, their types and their values.
ghost use Rattle.std.specs.Prelude.{◌≡◌, ◌↔◌, IsTrue, Some};
ghost use Rattle.reo_values.specs.Kind.{IsIn};
ghost use Rattle.reo_values.specs.Valid.{IsValid};
ghost use Rattle.reo_exprs.specs.Kinds.{kind_of, joins, LiesInside};
ghost use Rattle.reo_exprs.specs.Least.{IntervalsAreLeast};
ghost use Rattle.reo_exprs.specs.WellFormed.{IsWellFormed};
ghost use Rattle.reo_exprs.specs.Typing.{kind_of_expr, type_of_expr};
ghost use Rattle.reo_exprs.specs.Valued.{value_of_expr};

use crate::Expr;
use reo_values::{Kindred, Value};

/// The value of an expression is of the expression's type, for every item.
pub fn value_in_type(expr: &Expr, of: &Kindred, kindred: &Kindred, item: &Value)
    requires sound { IsWellFormed expr.now }
    requires typed { type_of_expr expr.now of.now ≡ Some kindred.now }
    requires member { IsIn item.now of.now }
    ensures { IsIn (value_of_expr expr.now item.now) kindred.now }
{}

/// An item of a type is of each type that the type lies inside.
pub fn item_in_wider_type(item: &Value, a: &Kindred, b: &Kindred)
    requires inside { LiesInside a.now b.now }
    requires member { IsIn item.now a.now }
    ensures { IsIn item.now b.now }
{}

/// The type of an expression is valid, where that of the item is.
pub fn type_is_valid(expr: &Expr, of: &Kindred, kindred: &Kindred)
    requires sound { IsWellFormed expr.now }
    requires typed { type_of_expr expr.now of.now ≡ Some kindred.now }
    requires valid { IsValid of.now }
    ensures { IsValid kindred.now }
{}

/// The kind of an expression is the kind of its type, where it has a type.
pub fn kind_is_that_of_the_type(expr: &Expr, of: &Kindred, kindred: &Kindred)
    requires typed { type_of_expr expr.now of.now ≡ Some kindred.now }
    ensures { kind_of_expr expr.now of.now ≡ Some (kind_of kindred.now) }
{}

/// Two types join exactly where their kinds are equal.
pub fn types_join_by_kind(a: &Kindred, b: &Kindred)
    ensures { IsTrue (joins a.now b.now) ↔ (kind_of a.now ≡ kind_of b.now) }
{}

/// The interval of a sum, a difference, a product, a negated number, or a quotient by numbers of
/// at least 1, is the least one with all results, and that of a join the least with the numbers
/// of both. That of a remainder need not be the least.
pub fn intervals_are_least()
    ensures { IntervalsAreLeast }
{}
