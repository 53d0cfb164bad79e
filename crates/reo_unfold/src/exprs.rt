//! What written expressions stand for.
ghost use Rattle.std.specs.Prelude.{◌≡◌, List, IfOk, take};
ghost use Rattle.std.specs.List.{All};
ghost use Rattle.reo_rules.specs.literals.Items.{HasFewNames};
ghost use Rattle.reo_rules.specs.Types.{Typed};
ghost use Rattle.reo_rules.specs.Terms.{symbol_in, expr_of};
ghost use Rattle.reo_unfold.specs.Known.{AreTypes};

use crate::types::NamedTypes;
use reo_exprs::{Expr, ExprPair, ExprTriple};
use reo_rules::place_of;
use reo_trees::TermForm;
use reo_values::{Boxed, Bytes, Kindred, NoMemory};
use std::alloc::Global;

/// The expression of a symbol of a type, if it is one.
fn symbol_of(kindred: &Kindred, symbol: &Bytes) -> Result<Option<Expr>, NoMemory>
    requires { HasFewNames kindred.now }
    ensures { IfOk result (λ made. made ≡ symbol_in kindred.now symbol.now) }
{
    match kindred {
        Kindred::Sym(names) => match place_of(names.get().as_slice(), symbol.as_slice()) {
            Some(place) => Ok(Some(Expr::Sym(names.share()?, place as u16))),
            None => Ok(None),
        },
        _ => Ok(None),
    }
}

/// What a written expression stands for, by the first so many types; `None` exactly where some
/// `T.s` in it is no symbol. `NoMemory`: out of memory.
pub(crate) fn expr_of(
    alloc: Global,
    types: &NamedTypes,
    known: usize,
    form: &TermForm,
) -> Result<Option<Expr>, NoMemory>
    requires { All HasFewNames types.now.kindreds }
    ensures { (ts : List Typed) → AreTypes ts types.now → IfOk result (λ made. made ≡ expr_of
        (take known ts) form.now) }
{
    match form {
        TermForm::It => Ok(Some(Expr::It)),
        TermForm::Unit => Ok(Some(Expr::Unit)),
        TermForm::Bool(truth) => Ok(Some(Expr::Bool(*truth))),
        TermForm::Int(number) => Ok(Some(Expr::Int(*number))),
        TermForm::Text(bytes) => Ok(Some(Expr::Text(bytes.copy(alloc)?))),
        TermForm::Sym(name, symbol) => match types.named(known, name.as_slice()) {
            Some(kindred) => symbol_of(kindred, symbol),
            None => Ok(None),
        },
        TermForm::One(op, operand) => match expr_of(alloc, types, known, &operand.get().form)? {
            Some(made) => Ok(Some(Expr::One(*op, Boxed::new(alloc, made)?))),
            None => Ok(None),
        },
        TermForm::Two(op, pair) => {
            let pair = pair.get();
            let Some(left) = expr_of(alloc, types, known, &pair.left.form)? else {
                return Ok(None);
            };
            let Some(right) = expr_of(alloc, types, known, &pair.right.form)? else {
                return Ok(None);
            };
            Ok(Some(Expr::Two(*op, Boxed::new(alloc, ExprPair { left, right })?)))
        }
        TermForm::If(parts) => {
            let parts = parts.get();
            let Some(condition) = expr_of(alloc, types, known, &parts.condition.form)? else {
                return Ok(None);
            };
            let Some(yes) = expr_of(alloc, types, known, &parts.yes.form)? else {
                return Ok(None);
            };
            let Some(no) = expr_of(alloc, types, known, &parts.no.form)? else {
                return Ok(None);
            };
            let parts = ExprTriple { condition, yes, no };
            Ok(Some(Expr::If(Boxed::new(alloc, parts)?)))
        }
    }
}
