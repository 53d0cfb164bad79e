//! The value of an expression.
ghost use Rattle.std.specs.Prelude.{◌≡◌, ◌↔◌, IfOk, IsTrue, Some};
ghost use Rattle.reo_values.specs.Kind.{IsIn};
ghost use Rattle.reo_exprs.specs.Typing.{IsTyped, type_of_expr};
ghost use Rattle.reo_exprs.specs.Valued.{truth, value_of_expr};

use crate::Expr;
use crate::view::{View, is_item, truth, view_of};
use reo_values::{Bytes, Couple, Kindred, NoMemory, Shared, Value, copy};
use std::alloc::Global;

/// The value of an expression on an item. `NoMemory` means out of memory.
pub fn value_of(alloc: Global, expr: &Expr, of: &Kindred, item: &Value) -> Result<Value, NoMemory>
    requires typed { IsTyped expr.now of.now }
    requires member { IsIn item.now of.now }
    ensures { IfOk result (λ made. made ≡ value_of_expr expr.now item.now) }
{
    match view_of(expr, of, item) {
        View::Unit => Ok(Value::Unit),
        View::Bool(truth) => Ok(Value::Bool(truth)),
        View::Int(number) => Ok(Value::Int(number)),
        View::Sym(place) => Ok(Value::Sym(place)),
        View::Text(bytes) => {
            let text = Bytes::from_slice(alloc, bytes)?;
            Ok(Value::Text(Shared::new(alloc, text)?))
        }
        View::Item(part) => copy(part),
        View::Pair(pair) => {
            let left = value_of(alloc, &pair.left, of, item)?;
            let right = value_of(alloc, &pair.right, of, item)?;
            let couple = Shared::new(alloc, Couple { left, right })?;
            Ok(Value::Pair(couple))
        }
    }
}

/// Whether a value is that of an expression on an item. This takes no memory.
pub fn value_is(expr: &Expr, of: &Kindred, item: &Value, value: &Value) -> bool
    requires typed { IsTyped expr.now of.now }
    requires member { IsIn item.now of.now }
    ensures { IsTrue result ↔ (value_of_expr expr.now item.now ≡ value.now) }
{
    is_item(view_of(expr, of, item), value, of, item)
}

/// Whether the value of an expression on an item is true, where its type is that of truth values.
/// This takes no memory.
pub fn truth_of(expr: &Expr, of: &Kindred, item: &Value) -> bool
    requires typed { type_of_expr expr.now of.now ≡ Some Kindred.Bool }
    requires member { IsIn item.now of.now }
    ensures { value_of_expr expr.now item.now ≡ Value.Bool result }
{
    truth(&view_of(expr, of, item), item)
}
