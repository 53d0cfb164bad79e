//! The kinds of written expressions, by number.
ghost use Rattle.std.specs.Prelude.{◌≡◌, ◌<◌, ◌≢◌, ◌&&◌, length, is_some, pos, option_map, if◌then◌else◌, Some, None, IfOk, OnOk};
ghost use Rattle.reo_exprs.specs.Kinds.{kind_of as bare, interval_of, most_of, twins_of, is_bool};
ghost use Rattle.reo_exprs.specs.Typing.{unary_kind, binary_kind, if_kind};
ghost use Rattle.reo_values.specs.declared.kindred.Kindred.TheVariants as type_variants;
ghost use Rattle.reo_values.specs.declared.kindred.Kindred.{Kindred as AType};
ghost use Rattle.reo_rules_types.specs.Cells.{type_at, Keeps};
ghost use Rattle.reo_rules_types.specs.Scoped.{typed, AreKnown};
ghost use Rattle.reo_rules_types.specs.Kinded.{fits_test, kind_of_symbol, kind_of_form, IsMade};

use crate::cell::TypeParts;
use crate::scope::Scope;
use crate::types::TypeStore;
use reo_trees::{Binary, TermForm, Unary};
use reo_values::{Bytes, NoMemory};
use std::alloc::Global;

fn is_bool(types: &TypeStore, number: usize) -> bool
    requires { number < length types.now }
    ensures { result ≡ is_bool (type_at types.now number) }
{
    matches!(types.cell(number), TypeParts::Bool)
}

fn is_number(types: &TypeStore, number: usize) -> bool
    requires { number < length types.now }
    ensures { result ≡ is_some (interval_of (type_at types.now number)) }
{
    matches!(types.cell(number), TypeParts::Int(_, _))
}

fn is_text(types: &TypeStore, number: usize) -> bool
    requires { number < length types.now }
    ensures { result ≡ is_some (most_of (type_at types.now number)) }
{
    matches!(types.cell(number), TypeParts::Text(_))
}

// The type of the left parts, of a type of pairs.
fn left(types: &TypeStore, number: usize) -> Option<usize>
    requires { number < length types.now }
    ensures { IsMade types.now result
        (option_map (λ t. t.left) (twins_of (type_at types.now number))) }
{
    match types.cell(number) {
        TypeParts::Pair(left, _) => Some(*left),
        _ => None,
    }
}

// The type of the right parts, of a type of pairs.
fn right(types: &TypeStore, number: usize) -> Option<usize>
    requires { number < length types.now }
    ensures { IsMade types.now result
        (option_map (λ t. t.right) (twins_of (type_at types.now number))) }
{
    match types.cell(number) {
        TypeParts::Pair(_, right) => Some(*right),
        _ => None,
    }
}

// The type of truth values, where a test holds.
fn truth(alloc: Global, types: &mut TypeStore, test: bool) -> Result<Option<usize>, NoMemory>
    ensures keeps { OnOk result (Keeps types.old types.new) }
    ensures kind { IfOk result
        (λ made. IsMade types.new made (if test then Some type_variants.Bool else None)) }
{
    if test {
        Ok(Some(types.put(alloc, TypeParts::Bool)?))
    } else {
        Ok(None)
    }
}

// The kind of numbers, where a test holds.
fn whole(alloc: Global, types: &mut TypeStore, test: bool) -> Result<Option<usize>, NoMemory>
    ensures keeps { OnOk result (Keeps types.old types.new) }
    ensures kind { IfOk result
        (λ made. IsMade types.new made
        (if test then Some (type_variants.Int (pos 0) (pos 0)) else None)) }
{
    if test {
        Ok(Some(types.put(alloc, TypeParts::Int(0, 0))?))
    } else {
        Ok(None)
    }
}

fn one_kind(
    alloc: Global,
    types: &mut TypeStore,
    op: Unary,
    x: usize,
) -> Result<Option<usize>, NoMemory>
    requires known { x < length types.old }
    requires bare { bare (type_at types.old x) ≡ type_at types.old x }
    ensures keeps { OnOk result (Keeps types.old types.new) }
    ensures kind { IfOk result
        (λ made. IsMade types.new made (unary_kind op (type_at types.old x))) }
{
    match op {
        Unary::Not => {
            let test = is_bool(types, x);
            truth(alloc, types, test)
        }
        Unary::Minus => {
            let test = is_number(types, x);
            whole(alloc, types, test)
        }
        Unary::First => Ok(left(types, x)),
        Unary::Second => Ok(right(types, x)),
        Unary::Length => {
            let test = is_text(types, x);
            whole(alloc, types, test)
        }
    }
}

// Whether both operands are of a kind that an operator on truth values or a comparison takes.
fn fits_test(types: &TypeStore, op: Binary, x: usize, y: usize) -> bool
    requires left { x < length types.now }
    requires right { y < length types.now }
    ensures { result ≡ fits_test op (type_at types.now x) (type_at types.now y) }
{
    match op {
        Binary::Or | Binary::And => is_bool(types, x) && is_bool(types, y),
        Binary::Eq | Binary::Ne => types.same(x, y),
        _ => is_number(types, x) && is_number(types, y),
    }
}

fn two_kind(
    alloc: Global,
    types: &mut TypeStore,
    op: Binary,
    x: usize,
    y: usize,
) -> Result<Option<usize>, NoMemory>
    requires left { x < length types.old }
    requires right { y < length types.old }
    requires left_bare { bare (type_at types.old x) ≡ type_at types.old x }
    requires right_bare { bare (type_at types.old y) ≡ type_at types.old y }
    ensures keeps { OnOk result (Keeps types.old types.new) }
    ensures kind { IfOk result
        (λ made. IsMade types.new made
        (binary_kind op (type_at types.old x) (type_at types.old y))) }
{
    let fits = fits_test(types, op, x, y);
    match op {
        Binary::Pair => Ok(Some(types.put(alloc, TypeParts::Pair(x, y))?)),
        Binary::Add | Binary::Sub | Binary::Mul | Binary::Div | Binary::Rem => {
            whole(alloc, types, fits)
        }
        Binary::Or | Binary::And | Binary::Eq | Binary::Ne => truth(alloc, types, fits),
        Binary::Lt | Binary::Le | Binary::Gt | Binary::Ge => truth(alloc, types, fits),
    }
}

fn choice_kind(types: &TypeStore, condition: usize, yes: usize, no: usize) -> Option<usize>
    requires condition { condition < length types.now }
    requires yes { yes < length types.now }
    requires no { no < length types.now }
    requires yes_bare { bare (type_at types.now yes) ≡ type_at types.now yes }
    requires no_bare { bare (type_at types.now no) ≡ type_at types.now no }
    ensures { IsMade types.now result
        (if_kind (type_at types.now condition) (type_at types.now yes) (type_at types.now no)) }
{
    if is_bool(types, condition) && types.same(yes, no) {
        Some(yes)
    } else {
        None
    }
}

// The type of a symbol, where the type of this name has it.
fn symbol_kind(types: &TypeStore, declared: &Scope, name: &Bytes, symbol: &Bytes) -> Option<usize>
    requires { AreKnown types.now declared.now }
    ensures { (of : AType)
        → IsMade types.now result
        (kind_of_symbol (typed types.now declared.now) name.now symbol.now of) }
{
    let number = declared.find(name.as_slice());
    if types.has_symbol(number, symbol.as_slice()) {
        Some(number)
    } else {
        None
    }
}

/// The kind of a written expression where `it` has a type, or None exactly where it has none: a
/// part is of a kind that does not fit where it stands, or some `T.s` is no symbol of a sym type.
/// All types keep their numbers. `NoMemory` means out of memory.
pub(crate) fn kind_of_term(
    alloc: Global,
    types: &mut TypeStore,
    declared: &Scope,
    form: &TermForm,
    of: usize,
) -> Result<Option<usize>, NoMemory>
    requires known { AreKnown types.old declared.now }
    requires of { of < length types.old }
    ensures keeps { OnOk result (Keeps types.old types.new) }
    ensures kind { IfOk result
        (λ made. IsMade types.new made
        (kind_of_form (typed types.old declared.now) form.now (type_at types.old of))) }
{
    match form {
        TermForm::It => Ok(Some(types.kind(of))),
        TermForm::Unit => Ok(Some(types.put(alloc, TypeParts::Unit)?)),
        TermForm::Bool(_) => Ok(Some(types.put(alloc, TypeParts::Bool)?)),
        TermForm::Int(_) => Ok(Some(types.put(alloc, TypeParts::Int(0, 0))?)),
        TermForm::Text(_) => Ok(Some(types.put(alloc, TypeParts::Text(0))?)),
        TermForm::Sym(name, symbol) => Ok(symbol_kind(types, declared, name, symbol)),
        TermForm::One(op, operand) => {
            match kind_of_term(alloc, types, declared, &operand.get().form, of)? {
                Some(x) => one_kind(alloc, types, *op, x),
                None => Ok(None),
            }
        }
        TermForm::Two(op, pair) => {
            let pair = pair.get();
            let Some(x) = kind_of_term(alloc, types, declared, &pair.left.form, of)? else {
                return Ok(None);
            };
            let Some(y) = kind_of_term(alloc, types, declared, &pair.right.form, of)? else {
                return Ok(None);
            };
            two_kind(alloc, types, *op, x, y)
        }
        TermForm::If(parts) => {
            let parts = parts.get();
            let Some(c) = kind_of_term(alloc, types, declared, &parts.condition.form, of)? else {
                return Ok(None);
            };
            let Some(yes) = kind_of_term(alloc, types, declared, &parts.yes.form, of)? else {
                return Ok(None);
            };
            let Some(no) = kind_of_term(alloc, types, declared, &parts.no.form, of)? else {
                return Ok(None);
            };
            Ok(choice_kind(types, c, yes, no))
        }
    }
}
