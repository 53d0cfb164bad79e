//! Expressions are copied whole.
ghost use Rattle.std.specs.Prelude.{◌≡◌, IfOk};

use crate::{Term, TermForm, TermPair, TermTriple};
use reo_values::{Boxed, Copies, NoMemory};
use std::alloc::Global;

impl Copies for Term {
    fn copied(&self, alloc: Global) -> Result<Self, NoMemory> {
        copy_term(alloc, self)
    }
}

#[cycle(copying)]
fn copy_term(alloc: Global, term: &Term) -> Result<Term, NoMemory>
    ensures { IfOk result (λ copy. copy ≡ term.now) }
{
    let form = copy_form(alloc, &term.form)?;
    Ok(Term {
        line: term.line,
        form,
    })
}

#[cycle(copying)]
fn copy_form(alloc: Global, form: &TermForm) -> Result<TermForm, NoMemory>
    ensures { IfOk result (λ copy. copy ≡ form.now) }
{
    match form {
        TermForm::It => Ok(TermForm::It),
        TermForm::Unit => Ok(TermForm::Unit),
        TermForm::Bool(truth) => Ok(TermForm::Bool(*truth)),
        TermForm::Int(number) => Ok(TermForm::Int(*number)),
        TermForm::Text(text) => Ok(TermForm::Text(text.copy(alloc)?)),
        TermForm::Sym(of, symbol) => {
            let of = of.copy(alloc)?;
            Ok(TermForm::Sym(of, symbol.copy(alloc)?))
        }
        TermForm::One(operator, operand) => {
            let operand = copy_term(alloc, operand.get())?;
            Ok(TermForm::One(*operator, Boxed::new(alloc, operand)?))
        }
        TermForm::Two(operator, operands) => {
            let operands = copy_pair(alloc, operands.get())?;
            Ok(TermForm::Two(*operator, Boxed::new(alloc, operands)?))
        }
        TermForm::If(parts) => {
            let parts = copy_triple(alloc, parts.get())?;
            Ok(TermForm::If(Boxed::new(alloc, parts)?))
        }
    }
}

#[cycle(copying)]
fn copy_pair(alloc: Global, pair: &TermPair) -> Result<TermPair, NoMemory>
    ensures { IfOk result (λ copy. copy ≡ pair.now) }
{
    let left = copy_term(alloc, &pair.left)?;
    let right = copy_term(alloc, &pair.right)?;
    Ok(TermPair { left, right })
}

#[cycle(copying)]
fn copy_triple(alloc: Global, triple: &TermTriple) -> Result<TermTriple, NoMemory>
    ensures { IfOk result (λ copy. copy ≡ triple.now) }
{
    let condition = copy_term(alloc, &triple.condition)?;
    let yes = copy_term(alloc, &triple.yes)?;
    let no = copy_term(alloc, &triple.no)?;
    Ok(TermTriple { condition, yes, no })
}
