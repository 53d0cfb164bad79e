//! The type of an expression.
ghost use Rattle.std.specs.Prelude.{◌≡◌, ◌≢◌, IfErr, IfNone, IfOk, IfSome, IsTrue, IsSome, Err, Ok, Some, None, nat_le};
ghost use Rattle.std.specs.Result.{IsErrOf};
ghost use Rattle.reo_exprs.specs.Interval.{is_near_interval, near, arithmetic};
ghost use Rattle.reo_exprs.specs.Kinds.{is_within};
ghost use Rattle.reo_exprs.specs.Typing.{provided, within, may_stand_right, int_type, unary_within, numbers_within, binary_within, if_within, kind_of_expr, type_of_expr};

use crate::interval::{Interval, difference, negated, product, quotient, remainder, sum};
use crate::kind::kind_of_expr;
use crate::kinds::{interval_of, is_bool, is_within, join, joins};
use crate::parts::{left_type, may_choose, provided, right_type};
use crate::{Expr, TypeFault};
use reo_values::{Binary, Kindred, NoMemory, Shared, Twins, Unary, copy_kindred};
use std::alloc::Global;

// The type, where its bounds lie from -10^18 to 10^18.
fn within(kindred: Kindred) -> Option<Kindred>
    ensures { result ≡ within kindred }
{
    let test = is_within(&kindred);
    provided(test, kindred)
}

fn minus_type(x: &Kindred) -> Option<Kindred>
    requires { IsTrue (is_within x.now) }
    ensures { result ≡ unary_within Unary.Minus x.now }
{
    let made = negated(interval_of(x)?)?;
    Some(Kindred::Int(made.low, made.high))
}

fn one_type(op: Unary, x: &Kindred) -> Result<Option<Kindred>, NoMemory>
    requires { IsTrue (is_within x.now) }
    ensures { IfOk result (λ made. made ≡ unary_within op x.now) }
{
    match op {
        Unary::Not => Ok(provided(is_bool(x), Kindred::Bool)),
        Unary::Minus => Ok(minus_type(x)),
        Unary::First => left_type(x),
        Unary::Second => right_type(x),
        Unary::Length => match x {
            Kindred::Text(most) => Ok(Some(Kindred::Int(0, *most as i64))),
            _ => Ok(None),
        },
    }
}

// Whether an operator may have these numbers on its right: a divisor is at least 1.
fn may_stand_right(op: Binary, y: Interval) -> bool
    ensures { result ≡ may_stand_right op (int_type y) }
{
    match op {
        Binary::Div | Binary::Rem => 1 <= y.low && 1 <= y.high,
        _ => true,
    }
}

// The numbers that an operator gives on those of two intervals.
fn arithmetic(op: Binary, x: Interval, y: Interval) -> Option<Interval>
    requires left { IsTrue (is_near_interval x) }
    requires right { IsTrue (is_near_interval y) }
    requires fits { IsTrue (may_stand_right op (int_type y)) }
    ensures { result ≡ near (arithmetic op x y) }
{
    match op {
        Binary::Add => sum(x, y),
        Binary::Sub => difference(x, y),
        Binary::Mul => product(x, y),
        Binary::Div => quotient(x, y),
        _ => remainder(x, y),
    }
}

fn number_type(op: Binary, x: &Kindred, y: &Kindred) -> Option<Kindred>
    requires left { IsTrue (is_within x.now) }
    requires right { IsTrue (is_within y.now) }
    ensures { result ≡ numbers_within op x.now y.now }
{
    let (x, y) = (interval_of(x)?, interval_of(y)?);
    if !may_stand_right(op, y) {
        return None;
    }
    let made = arithmetic(op, x, y)?;
    Some(Kindred::Int(made.low, made.high))
}

// The type of the value of an operator that makes no pair.
fn flat_type(op: Binary, x: &Kindred, y: &Kindred) -> Option<Kindred>
    requires flat { op ≢ Binary.Pair }
    requires left { IsTrue (is_within x.now) }
    requires right { IsTrue (is_within y.now) }
    ensures { result ≡ binary_within op x.now y.now }
{
    match op {
        Binary::Or | Binary::And => provided(is_bool(x) && is_bool(y), Kindred::Bool),
        Binary::Eq | Binary::Ne => provided(joins(x, y), Kindred::Bool),
        Binary::Lt | Binary::Le | Binary::Gt | Binary::Ge => {
            let numbers = interval_of(x).is_some() && interval_of(y).is_some();
            provided(numbers, Kindred::Bool)
        }
        _ => number_type(op, x, y),
    }
}

fn two_type(alloc: Global, op: Binary, x: Kindred, y: Kindred) -> Result<Option<Kindred>, NoMemory>
    requires left { IsTrue (is_within x) }
    requires right { IsTrue (is_within y) }
    ensures { IfOk result (λ made. made ≡ binary_within op x y) }
{
    match op {
        Binary::Pair => {
            let twins = Twins { left: x, right: y };
            Ok(Some(Kindred::Pair(Shared::new(alloc, twins)?)))
        }
        _ => Ok(flat_type(op, &x, &y)),
    }
}

fn choice_type(
    alloc: Global,
    condition: &Kindred,
    yes: &Kindred,
    no: &Kindred,
) -> Result<Option<Kindred>, NoMemory>
    requires left { IsTrue (is_within yes.now) }
    requires right { IsTrue (is_within no.now) }
    ensures { IfOk result (λ made. made ≡ if_within condition.now yes.now no.now) }
{
    if may_choose(condition, yes, no) {
        Ok(Some(join(alloc, yes, no)?))
    } else {
        Ok(None)
    }
}

fn literal_text_type(length: usize) -> Option<Kindred>
    ensures { result ≡ provided (nat_le length 1024) (Kindred.Text length) }
{
    if length <= 1024 {
        Some(Kindred::Text(length as u16))
    } else {
        None
    }
}

// The type, or None where the expression is mistyped or a bound is broken.
fn type_within(alloc: Global, expr: &Expr, of: &Kindred) -> Result<Option<Kindred>, NoMemory>
    ensures { IfOk result (λ made. made ≡ type_of_expr expr.now of.now) }
{
    match expr {
        Expr::It => Ok(within(copy_kindred(of)?)),
        Expr::Unit => Ok(Some(Kindred::Unit)),
        Expr::Bool(_) => Ok(Some(Kindred::Bool)),
        Expr::Int(number) => Ok(within(Kindred::Int(*number, *number))),
        Expr::Text(bytes) => Ok(literal_text_type(bytes.len())),
        Expr::Sym(names, _) => Ok(Some(Kindred::Sym(names.share()?))),
        Expr::One(op, operand) => match type_within(alloc, operand.get(), of)? {
            Some(x) => one_type(*op, &x),
            None => Ok(None),
        },
        Expr::Two(op, pair) => {
            let pair = pair.get();
            let Some(x) = type_within(alloc, &pair.left, of)? else {
                return Ok(None);
            };
            let Some(y) = type_within(alloc, &pair.right, of)? else {
                return Ok(None);
            };
            two_type(alloc, *op, x, y)
        }
        Expr::If(parts) => {
            let parts = parts.get();
            let Some(condition) = type_within(alloc, &parts.condition, of)? else {
                return Ok(None);
            };
            let Some(yes) = type_within(alloc, &parts.yes, of)? else {
                return Ok(None);
            };
            let Some(no) = type_within(alloc, &parts.no, of)? else {
                return Ok(None);
            };
            choice_type(alloc, &condition, &yes, &no)
        }
    }
}

// The type that was found, the fault where there is none, and out of memory only where that was
// met.
fn or_fault(
    found: Result<Option<Kindred>, NoMemory>,
    fault: TypeFault,
) -> Result<Kindred, TypeFault>
    requires { fault ≢ TypeFault.NoMemory }
    ensures typed { IfOk found (λ made. IfSome made (λ kindred. result ≡ Ok kindred)) }
    ensures fault { IfOk found (λ made. IfNone made (result ≡ Err fault)) }
    ensures memory { IfErr found (λ error. result ≡ Err TypeFault.NoMemory) }
{
    match found {
        Ok(Some(kindred)) => Ok(kindred),
        Ok(None) => Err(fault),
        Err(NoMemory) => Err(TypeFault::NoMemory),
    }
}

/// The type of an expression where `it` has a type. `Mistyped` where a part of it is of a kind
/// that does not fit where it stands; `Range` where it is not mistyped and an interval leaves
/// -10^18 to 10^18, a divisor's interval has a number below 1, or a text has more than 1,024
/// bytes; `NoMemory` means out of memory.
pub fn type_of(alloc: Global, expr: &Expr, of: &Kindred) -> Result<Kindred, TypeFault>
    ensures typed { IfOk result (λ t. type_of_expr expr.now of.now ≡ Some t) }
    ensures kind { IfOk result (λ t. IsSome (kind_of_expr expr.now of.now)) }
    ensures mistyped { IsErrOf result TypeFault.Mistyped → kind_of_expr expr.now of.now ≡ None }
    ensures range { IsErrOf result TypeFault.Range → IsSome (kind_of_expr expr.now of.now)
        × (type_of_expr expr.now of.now ≡ None) }
{
    or_fault(kind_of_expr(alloc, expr, of), TypeFault::Mistyped)?;
    or_fault(type_within(alloc, expr, of), TypeFault::Range)
}
