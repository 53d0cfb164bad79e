//! The kind of an expression.
ghost use Rattle.std.specs.Prelude.{◌≡◌, ◌≢◌, IfOk};
ghost use Rattle.reo_exprs.specs.Kinds.{kind_of as bare};
ghost use Rattle.reo_exprs.specs.Typing.{unary_kind, binary_kind, if_kind, kind_of_expr as kind_by_table};

use crate::Expr;
use crate::kinds::{interval_of, is_bool, joins, kind_of};
use crate::parts::{left_type, may_choose, provided, right_type};
use reo_values::{Binary, Kindred, NoMemory, Shared, Twins, Unary};
use std::alloc::Global;

fn one_kind(op: Unary, x: &Kindred) -> Result<Option<Kindred>, NoMemory>
    requires { bare x.now ≡ x.now }
    ensures { IfOk result (λ made. made ≡ unary_kind op x.now) }
{
    match op {
        Unary::Not => Ok(provided(is_bool(x), Kindred::Bool)),
        Unary::Minus => Ok(provided(interval_of(x).is_some(), Kindred::Int(0, 0))),
        Unary::First => left_type(x),
        Unary::Second => right_type(x),
        Unary::Length => match x {
            Kindred::Text(_) => Ok(Some(Kindred::Int(0, 0))),
            _ => Ok(None),
        },
    }
}

// The kind of the value of an operator that makes no pair.
fn flat_kind(op: Binary, x: &Kindred, y: &Kindred) -> Option<Kindred>
    requires flat { op ≢ Binary.Pair }
    ensures { result ≡ binary_kind op x.now y.now }
{
    let numbers = interval_of(x).is_some() && interval_of(y).is_some();
    match op {
        Binary::Or | Binary::And => provided(is_bool(x) && is_bool(y), Kindred::Bool),
        Binary::Eq | Binary::Ne => provided(joins(x, y), Kindred::Bool),
        Binary::Lt | Binary::Le | Binary::Gt | Binary::Ge => provided(numbers, Kindred::Bool),
        _ => provided(numbers, Kindred::Int(0, 0)),
    }
}

fn two_kind(alloc: Global, op: Binary, x: Kindred, y: Kindred) -> Result<Option<Kindred>, NoMemory>
    requires left { bare x ≡ x }
    requires right { bare y ≡ y }
    ensures { IfOk result (λ made. made ≡ binary_kind op x y) }
{
    match op {
        Binary::Pair => {
            let twins = Twins { left: x, right: y };
            Ok(Some(Kindred::Pair(Shared::new(alloc, twins)?)))
        }
        _ => Ok(flat_kind(op, &x, &y)),
    }
}

fn choice_kind(condition: &Kindred, yes: Kindred, no: &Kindred) -> Option<Kindred>
    requires { bare yes ≡ yes }
    ensures { result ≡ if_kind condition.now yes no.now }
{
    let fits = may_choose(condition, &yes, no);
    provided(fits, yes)
}

/// The kind of an expression where `it` has a type, or None exactly where a part of it is of a
/// kind that does not fit where it stands. `NoMemory` means out of memory.
pub fn kind_of_expr(alloc: Global, expr: &Expr, of: &Kindred) -> Result<Option<Kindred>, NoMemory>
    ensures { IfOk result (λ made. made ≡ kind_by_table expr.now of.now) }
{
    match expr {
        Expr::It => Ok(Some(kind_of(alloc, of)?)),
        Expr::Unit => Ok(Some(Kindred::Unit)),
        Expr::Bool(_) => Ok(Some(Kindred::Bool)),
        Expr::Int(_) => Ok(Some(Kindred::Int(0, 0))),
        Expr::Text(_) => Ok(Some(Kindred::Text(0))),
        Expr::Sym(names, _) => Ok(Some(Kindred::Sym(names.share()?))),
        Expr::One(op, operand) => match kind_of_expr(alloc, operand.get(), of)? {
            Some(x) => one_kind(*op, &x),
            None => Ok(None),
        },
        Expr::Two(op, pair) => {
            let pair = pair.get();
            let Some(x) = kind_of_expr(alloc, &pair.left, of)? else {
                return Ok(None);
            };
            let Some(y) = kind_of_expr(alloc, &pair.right, of)? else {
                return Ok(None);
            };
            two_kind(alloc, *op, x, y)
        }
        Expr::If(parts) => {
            let parts = parts.get();
            let Some(condition) = kind_of_expr(alloc, &parts.condition, of)? else {
                return Ok(None);
            };
            let Some(yes) = kind_of_expr(alloc, &parts.yes, of)? else {
                return Ok(None);
            };
            let Some(no) = kind_of_expr(alloc, &parts.no, of)? else {
                return Ok(None);
            };
            Ok(choice_kind(&condition, yes, &no))
        }
    }
}
