//! Values of expressions, seen without memory.
ghost use Rattle.std.specs.Prelude.{◌≡◌, ◌≢◌, ◌&&◌, ◌||◌, ◌≤◌, ◌+◌, IsTrue, pos, length};
ghost use Rattle.reo_values.specs.Kind.{IsIn};
ghost use Rattle.reo_values.specs.Pair.{left_of, right_of};
ghost use Rattle.reo_exprs.specs.Interval.{is_near};
ghost use Rattle.reo_exprs.specs.Typing.{IsTyped, may_stand_right};
ghost use Rattle.reo_exprs.specs.Valued.{truth, number, bytes_of, same_value, unary_value, binary_value, value_of_expr};
ghost use Rattle.reo_exprs.specs.Views.{AreTyped, IsMade, value_of_view, work, work_of_view};

use crate::{Expr, ExprPair};
use reo_values::{Binary, Kindred, Unary, Value, same_item};

/// The value of an expression, as parts of the item and of the expression.
#[derive(Clone, Copy)]
pub enum View<'a> {
    /// The item of the type unit.
    Unit,
    /// A truth value.
    Bool(bool),
    /// A whole number.
    Int(i64),
    /// The name at this place.
    Sym(u16),
    /// A text.
    Text(&'a [u8]),
    /// The pair of the values of two expressions.
    Pair(&'a ExprPair),
    /// An item, or a part of one.
    Item(&'a Value),
}

/// The truth of a truth value.
pub fn truth(view: &View<'_>, item: &Value) -> bool
    ensures { result ≡ truth (value_of_view view.now item.now) }
{
    match view {
        View::Bool(truth) => *truth,
        View::Item(Value::Bool(truth)) => *truth,
        _ => false,
    }
}

fn number(view: &View<'_>, item: &Value) -> i64
    ensures { result ≡ number (value_of_view view.now item.now) }
{
    match view {
        View::Int(number) => *number,
        View::Item(Value::Int(number)) => *number,
        _ => 0,
    }
}

fn length(view: &View<'_>, item: &Value) -> i64
    ensures { result ≡ pos (length (bytes_of (value_of_view view.now item.now))) }
{
    match view {
        View::Text(bytes) => bytes.len() as i64,
        View::Item(Value::Text(text)) => text.get().as_slice().len() as i64,
        _ => 0,
    }
}

fn left_part(item: &Value) -> &Value
    ensures { result.now ≡ left_of item.now }
{
    match item {
        Value::Pair(couple) => &couple.get().left,
        _ => item,
    }
}

fn right_part(item: &Value) -> &Value
    ensures { result.now ≡ right_of item.now }
{
    match item {
        Value::Pair(couple) => &couple.get().right,
        _ => item,
    }
}

// The value of an operator on that of its operand.
#[cycle(seeing)]
fn one_view<'a>(op: Unary, x: View<'a>, of: &Kindred, item: &'a Value) -> View<'a>
    requires typed { AreTyped x of.now }
    requires near { IsTrue (is_near (number (value_of_view x item.now))) }
    requires member { IsIn item.now of.now }
    ensures value { value_of_view result item.now ≡ unary_value op
        (value_of_view x.entry item.now) }
    ensures typed { AreTyped result of.now }
    ensures work { work_of_view result ≤ work_of_view x.entry }
{
    match op {
        Unary::Not => View::Bool(!truth(&x, item)),
        Unary::Minus => View::Int(-number(&x, item)),
        Unary::Length => View::Int(length(&x, item)),
        Unary::First => match x {
            View::Pair(pair) => view_of(&pair.left, of, item),
            View::Item(part) => View::Item(left_part(part)),
            other => other,
        },
        Unary::Second => match x {
            View::Pair(pair) => view_of(&pair.right, of, item),
            View::Item(part) => View::Item(right_part(part)),
            other => other,
        },
    }
}

fn either(x: bool, y: bool) -> bool
    ensures { result ≡ (x || y) }
{
    x || y
}

fn both(x: bool, y: bool) -> bool
    ensures { result ≡ (x && y) }
{
    x && y
}

// The value of an operator on numbers.
fn calculated<'a>(op: Binary, x: i64, y: i64) -> View<'a>
    requires apart { op ≢ Binary.Pair }
    requires fits { IsTrue (is_near (number (binary_value op (Value.Int x) (Value.Int y)))) }
    requires divisor { IsTrue (may_stand_right op (Kindred.Int y y)) }
    ensures value { (item : Value) → value_of_view result item ≡ binary_value op (Value.Int x)
        (Value.Int y) }
    ensures typed { (of : Kindred) → AreTyped result of }
    ensures work { work_of_view result ≡ 0 }
{
    match op {
        Binary::Or => View::Bool(false),
        Binary::And => View::Bool(false),
        Binary::Eq => View::Bool(x == y),
        Binary::Ne => View::Bool(x != y),
        Binary::Lt => View::Bool(x < y),
        Binary::Le => View::Bool(x <= y),
        Binary::Gt => View::Bool(x > y),
        Binary::Ge => View::Bool(x >= y),
        Binary::Add => View::Int(x + y),
        Binary::Sub => View::Int(x - y),
        Binary::Mul => View::Int(x * y),
        Binary::Div => View::Int(x / y),
        Binary::Rem => View::Int(x % y),
        Binary::Pair => unreachable!(),
    }
}

// The value of an operator other than a pair on those of its operands.
#[cycle(seeing)]
fn two_view<'a>(op: Binary, pair: &'a ExprPair, of: &Kindred, item: &'a Value) -> View<'a>
    requires apart { op ≢ Binary.Pair }
    requires typed { IsTyped (Expr.Two op pair.now) of.now }
    requires member { IsIn item.now of.now }
    ensures value { value_of_view result item.now ≡ value_of_expr (Expr.Two op pair.now) item.now }
    ensures typed { AreTyped result of.now }
    ensures work { work_of_view result ≡ 0 }
{
    let x = view_of(&pair.left, of, item);
    let y = view_of(&pair.right, of, item);
    match op {
        Binary::Or => View::Bool(either(truth(&x, item), truth(&y, item))),
        Binary::And => View::Bool(both(truth(&x, item), truth(&y, item))),
        Binary::Eq => View::Bool(same_view(x, y, of, item)),
        Binary::Ne => View::Bool(!same_view(x, y, of, item)),
        _ => calculated(op, number(&x, item), number(&y, item)),
    }
}

/// The value of an expression on an item. Each part of the expression is looked at once at most.
#[cycle(seeing)]
pub fn view_of<'a>(expr: &'a Expr, of: &Kindred, item: &'a Value) -> View<'a>
    requires typed { IsTyped expr.now of.now }
    requires member { IsIn item.now of.now }
    ensures value { value_of_view result item.now ≡ value_of_expr expr.now item.now }
    ensures typed { AreTyped result of.now }
    ensures work { work_of_view result ≤ work expr.now }
{
    match expr {
        Expr::It => View::Item(item),
        Expr::Unit => View::Unit,
        Expr::Bool(truth) => View::Bool(*truth),
        Expr::Int(number) => View::Int(*number),
        Expr::Text(bytes) => View::Text(bytes.as_slice()),
        Expr::Sym(_, place) => View::Sym(*place),
        Expr::One(op, operand) => one_view(*op, view_of(operand.get(), of, item), of, item),
        Expr::Two(op, pair) => {
            let pair = pair.get();
            match *op {
                Binary::Pair => View::Pair(pair),
                _ => two_view(*op, pair, of, item),
            }
        }
        Expr::If(parts) => {
            let parts = parts.get();
            if truth(&view_of(&parts.condition, of, item), item) {
                view_of(&parts.yes, of, item)
            } else {
                view_of(&parts.no, of, item)
            }
        }
    }
}

/// Whether a value is an item.
#[cycle(seeing)]
pub fn is_item(x: View<'_>, value: &Value, of: &Kindred, item: &Value) -> bool
    requires typed { AreTyped x of.now }
    requires member { IsIn item.now of.now }
    ensures { result ≡ same_value (value_of_view x.entry item.now) value.now }
{
    match (x, value) {
        (View::Item(part), _) => same_item(part, value),
        (View::Unit, Value::Unit) => true,
        (View::Bool(a), Value::Bool(b)) => a == *b,
        (View::Int(a), Value::Int(b)) => a == *b,
        (View::Sym(a), Value::Sym(b)) => a == *b,
        (View::Text(a), Value::Text(b)) => a == b.get().as_slice(),
        (View::Pair(pair), Value::Pair(couple)) => {
            let couple = couple.get();
            is_item(view_of(&pair.left, of, item), &couple.left, of, item)
                && is_item(view_of(&pair.right, of, item), &couple.right, of, item)
        }
        _ => false,
    }
}

// Whether the values of views that are no items are equal.
#[cycle(seeing)]
fn same_made(x: View<'_>, y: View<'_>, of: &Kindred, item: &Value) -> bool
    requires left { AreTyped x of.now }
    requires right { AreTyped y of.now }
    requires left_made { IsMade x }
    requires right_made { IsMade y }
    requires member { IsIn item.now of.now }
    ensures { result ≡ same_value (value_of_view x.entry item.now)
        (value_of_view y.entry item.now) }
{
    match (x, y) {
        (View::Unit, View::Unit) => true,
        (View::Bool(a), View::Bool(b)) => a == b,
        (View::Int(a), View::Int(b)) => a == b,
        (View::Sym(a), View::Sym(b)) => a == b,
        (View::Text(a), View::Text(b)) => a == b,
        (View::Pair(a), View::Pair(b)) => {
            let (left, other) = (view_of(&a.left, of, item), view_of(&b.left, of, item));
            if !same_view(left, other, of, item) {
                return false;
            }
            let (right, other) = (view_of(&a.right, of, item), view_of(&b.right, of, item));
            same_view(right, other, of, item)
        }
        _ => false,
    }
}

/// Whether two values are equal.
#[cycle(seeing)]
fn same_view(x: View<'_>, y: View<'_>, of: &Kindred, item: &Value) -> bool
    requires left { AreTyped x of.now }
    requires right { AreTyped y of.now }
    requires member { IsIn item.now of.now }
    ensures { result ≡ same_value (value_of_view x.entry item.now)
        (value_of_view y.entry item.now) }
{
    match x {
        View::Item(part) => is_item(y, part, of, item),
        _ => match y {
            View::Item(part) => is_item(x, part, of, item),
            _ => same_made(x, y, of, item),
        },
    }
}
