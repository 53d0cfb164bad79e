//! Expressions, their names resolved.
ghost use Rattle.std.specs.Prelude.{◌≡◌, ◌<◌, length, Some, IfOk};
ghost use Rattle.reo_rules.specs.Terms.{symbol_in, expr_of};
ghost use Rattle.reo_rules_types.specs.Cells.{type_at};
ghost use Rattle.reo_rules_types.specs.Resolved.{pair_of};
ghost use Rattle.reo_rules_types.specs.Scoped.{typed, AreKnown};

use crate::scope::Scope;
use crate::types::TypeStore;
use reo_exprs::{Expr, ExprPair, ExprTriple};
use reo_rules::place_of;
use reo_trees::{Binary, Term, TermForm, Unary};
use reo_values::{Boxed, Kindred, NoMemory};
use std::alloc::Global;

// The symbol of a type of this name. Out of memory also where its place is above 65,535.
fn symbol_expr(types: &TypeStore, number: usize, name: &[u8]) -> Result<Option<Expr>, NoMemory>
    requires { number < length types.now }
    ensures { IfOk result (λ made. made ≡ symbol_in (type_at types.now number) name.now) }
{
    let Kindred::Sym(names) = types.leaf(number) else {
        return Ok(None);
    };
    let Some(place) = place_of(names.get().as_slice(), name) else {
        return Ok(None);
    };
    if place > 65_535 {
        return Err(NoMemory);
    }
    Ok(Some(Expr::Sym(names.share()?, place as u16)))
}

fn one_expr(alloc: Global, op: Unary, operand: Expr) -> Result<Option<Expr>, NoMemory>
    ensures { IfOk result (λ made. made ≡ Some (Expr.One op operand)) }
{
    Ok(Some(Expr::One(op, Boxed::new(alloc, operand)?)))
}

fn two_expr(alloc: Global, op: Binary, pair: ExprPair) -> Result<Option<Expr>, NoMemory>
    ensures { IfOk result (λ made. made ≡ Some (Expr.Two op pair)) }
{
    Ok(Some(Expr::Two(op, Boxed::new(alloc, pair)?)))
}

fn if_expr(alloc: Global, condition: Expr, pair: ExprPair) -> Result<Option<Expr>, NoMemory>
    ensures { IfOk result
        (λ made. made
        ≡ Some (Expr.If (record { condition = condition; yes = pair.left; no = pair.right }))) }
{
    let parts = ExprTriple {
        condition,
        yes: pair.left,
        no: pair.right,
    };
    Ok(Some(Expr::If(Boxed::new(alloc, parts)?)))
}

// What two written expressions stand for, where each stands for something.
#[cycle(resolving)]
fn two_of(
    alloc: Global,
    types: &TypeStore,
    declared: &Scope,
    left: &Term,
    right: &Term,
) -> Result<Option<ExprPair>, NoMemory>
    requires { AreKnown types.now declared.now }
    ensures { IfOk result
        (λ made. made ≡ pair_of (expr_of (typed types.now declared.now) left.now.form)
        (expr_of (typed types.now declared.now) right.now.form)) }
{
    let Some(left) = expr_of_term(alloc, types, declared, &left.form)? else {
        return Ok(None);
    };
    match expr_of_term(alloc, types, declared, &right.form)? {
        Some(right) => Ok(Some(ExprPair { left, right })),
        None => Ok(None),
    }
}

/// What a written expression stands for, or None exactly where some `T.s` is no symbol of a sym
/// type. `NoMemory` means out of memory, or a symbol whose place is above 65,535, which no program
/// has that keeps the bounds of types.
#[cycle(resolving)]
pub(crate) fn expr_of_term(
    alloc: Global,
    types: &TypeStore,
    declared: &Scope,
    form: &TermForm,
) -> Result<Option<Expr>, NoMemory>
    requires { AreKnown types.now declared.now }
    ensures { IfOk result (λ made. made ≡ expr_of (typed types.now declared.now) form.now) }
{
    match form {
        TermForm::It => Ok(Some(Expr::It)),
        TermForm::Unit => Ok(Some(Expr::Unit)),
        TermForm::Bool(truth) => Ok(Some(Expr::Bool(*truth))),
        TermForm::Int(number) => Ok(Some(Expr::Int(*number))),
        TermForm::Text(bytes) => Ok(Some(Expr::Text(bytes.copy(alloc)?))),
        TermForm::Sym(name, symbol) => {
            let number = declared.find(name.as_slice());
            symbol_expr(types, number, symbol.as_slice())
        }
        TermForm::One(op, operand) => {
            match expr_of_term(alloc, types, declared, &operand.get().form)? {
                Some(operand) => one_expr(alloc, *op, operand),
                None => Ok(None),
            }
        }
        TermForm::Two(op, pair) => {
            let pair = pair.get();
            match two_of(alloc, types, declared, &pair.left, &pair.right)? {
                Some(pair) => two_expr(alloc, *op, pair),
                None => Ok(None),
            }
        }
        TermForm::If(parts) => {
            let parts = parts.get();
            let Some(condition) = expr_of_term(alloc, types, declared, &parts.condition.form)?
            else {
                return Ok(None);
            };
            match two_of(alloc, types, declared, &parts.yes, &parts.no)? {
                Some(pair) => if_expr(alloc, condition, pair),
                None => Ok(None),
            }
        }
    }
}
