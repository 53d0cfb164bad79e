//! The text of expressions.
ghost use Rattle.std.specs.Prelude.{◌≡◌, ◌++◌, OnOk, true, false};
ghost use Rattle.reo_values.specs.ItemText.{truth_text};
ghost use Rattle.reo_drawing.specs.label_texts.Signs.{unary_text, binary_text};
ghost use Rattle.reo_drawing.specs.label_texts.Exprs.{opening, closing, pair_text, infix_text, applied_text, form_text, expr_text, symbol_text};

use reo_exprs::{Expr, ExprPair};
use reo_values::{Binary, Bytes, NoMemory, Unary, append_number, append_quoted};
use std::alloc::Global;

/// Adds the word of a truth value.
fn append_truth(text: &mut Bytes, truth: bool) -> Result<(), NoMemory>
    ensures { OnOk result (text.new ≡ text.old ++ truth_text truth) }
{
    text.append(if truth { b"true".as_slice() } else { b"false" })
}

/// Adds the name at a place.
fn append_symbol(text: &mut Bytes, names: &[Bytes], place: usize) -> Result<(), NoMemory>
    ensures { OnOk result (text.new ≡ text.old ++ symbol_text names.now place) }
{
    match names.get(place) {
        Some(name) => text.append(name.as_slice()),
        None => Ok(()),
    }
}

/// The word or the sign of an operator with one operand.
fn unary_word(operator: Unary) -> &'static [u8]
    ensures { result.now ≡ unary_text operator }
{
    match operator {
        Unary::Not => b"!",
        Unary::Minus => b"-",
        Unary::First => b"first",
        Unary::Second => b"second",
        Unary::Length => b"length",
    }
}

/// The sign of an operator with two operands.
fn binary_sign(operator: Binary) -> &'static [u8]
    ensures { result.now ≡ binary_text operator }
{
    match operator {
        Binary::Or => b"||",
        Binary::And => b"&&",
        Binary::Eq => b"==",
        Binary::Ne => b"!=",
        Binary::Lt => b"<",
        Binary::Le => b"<=",
        Binary::Gt => b">",
        Binary::Ge => b">=",
        Binary::Add => b"+",
        Binary::Sub => b"-",
        Binary::Mul => b"*",
        Binary::Div => b"/",
        Binary::Rem => b"%",
        Binary::Pair => b",",
    }
}

/// Adds what opens a group, where there is one.
fn append_opening(text: &mut Bytes, grouped: bool) -> Result<(), NoMemory>
    ensures { OnOk result (text.new ≡ text.old ++ opening grouped) }
{
    if grouped { text.append(b"(") } else { Ok(()) }
}

/// Adds what closes it.
fn append_closing(text: &mut Bytes, grouped: bool) -> Result<(), NoMemory>
    ensures { OnOk result (text.new ≡ text.old ++ closing grouped) }
{
    if grouped { text.append(b")") } else { Ok(()) }
}

/// Adds an operator with its operand.
#[cycle(form)]
fn append_applied(
    alloc: Global,
    text: &mut Bytes,
    inner: bool,
    operator: Unary,
    operand: &Expr,
) -> Result<(), NoMemory>
    ensures { OnOk result (text.new ≡ text.old ++ applied_text inner operator
        (λ i. form_text i operand.now)) }
{
    match operator {
        Unary::Not | Unary::Minus => {
            append_opening(text, inner)?;
            text.append(unary_word(operator))?;
            append_form(alloc, text, true, operand)?;
            append_closing(text, inner)
        }
        _ => {
            text.append(unary_word(operator))?;
            text.append(b"(")?;
            append_form(alloc, text, false, operand)?;
            text.append(b")")
        }
    }
}

/// Adds a pair.
#[cycle(form)]
fn append_pair(alloc: Global, text: &mut Bytes, pair: &ExprPair) -> Result<(), NoMemory>
    ensures { OnOk result
        (text.new ≡ text.old ++ pair_text (form_text false pair.now.left)
        (form_text false pair.now.right)) }
{
    text.append(b"(")?;
    append_form(alloc, text, false, &pair.left)?;
    text.append(b", ")?;
    append_form(alloc, text, false, &pair.right)?;
    text.append(b")")
}

/// Adds an operator between its operands.
#[cycle(form)]
fn append_infix(
    alloc: Global,
    text: &mut Bytes,
    inner: bool,
    operator: Binary,
    pair: &ExprPair,
) -> Result<(), NoMemory>
    ensures { OnOk result (text.new ≡ text.old ++ infix_text inner operator
        (form_text true pair.now.left) (form_text true pair.now.right)) }
{
    append_opening(text, inner)?;
    append_form(alloc, text, true, &pair.left)?;
    text.append(b" ")?;
    text.append(binary_sign(operator))?;
    text.append(b" ")?;
    append_form(alloc, text, true, &pair.right)?;
    append_closing(text, inner)
}

/// Adds an expression, as an operand or by itself.
#[cycle(form)]
fn append_form(alloc: Global, text: &mut Bytes, inner: bool, expr: &Expr) -> Result<(), NoMemory>
    ensures { OnOk result (text.new ≡ text.old ++ form_text inner expr.now) }
{
    match expr {
        Expr::It => text.append(b"it"),
        Expr::Unit => text.append(b"unit"),
        Expr::Bool(truth) => append_truth(text, *truth),
        Expr::Int(number) => append_number(alloc, text, *number),
        Expr::Text(bytes) => append_quoted(text, bytes.as_slice()),
        Expr::Sym(names, place) => append_symbol(text, names.get().as_slice(), *place as usize),
        Expr::One(operator, operand) => {
            append_applied(alloc, text, inner, *operator, operand.get())
        }
        Expr::Two(operator, pair) => {
            let pair = pair.get();
            match operator {
                Binary::Pair => append_pair(alloc, text, pair),
                _ => append_infix(alloc, text, inner, *operator, pair),
            }
        }
        Expr::If(parts) => {
            let parts = parts.get();
            text.append(b"if(")?;
            append_form(alloc, text, false, &parts.condition)?;
            text.append(b", ")?;
            append_form(alloc, text, false, &parts.yes)?;
            text.append(b", ")?;
            append_form(alloc, text, false, &parts.no)?;
            text.append(b")")
        }
    }
}

/// Adds an expression. An operand that has an operator of its own stands in parentheses, and a name
/// stands without its type. `NoMemory` is out of memory.
pub fn append_expr(alloc: Global, text: &mut Bytes, expr: &Expr) -> Result<(), NoMemory>
    ensures { OnOk result (text.new ≡ text.old ++ expr_text expr.now) }
{
    append_form(alloc, text, false, expr)
}
