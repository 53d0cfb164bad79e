//! Literals are copied whole.
ghost use Rattle.std.specs.Prelude.{◌≡◌, IfOk};

use crate::{Constant, Literal, LiteralPair};
use reo_values::{Boxed, Copies, NoMemory};
use std::alloc::Global;

impl Copies for Literal {
    fn copied(&self, alloc: Global) -> Result<Self, NoMemory> {
        copy_literal(alloc, self)
    }
}

#[cycle(copying)]
fn copy_literal(alloc: Global, literal: &Literal) -> Result<Literal, NoMemory>
    ensures { IfOk result (λ copy. copy ≡ literal.now) }
{
    let constant = copy_constant(alloc, &literal.constant)?;
    Ok(Literal {
        line: literal.line,
        constant,
    })
}

#[cycle(copying)]
fn copy_constant(alloc: Global, constant: &Constant) -> Result<Constant, NoMemory>
    ensures { IfOk result (λ copy. copy ≡ constant.now) }
{
    match constant {
        Constant::Unit => Ok(Constant::Unit),
        Constant::Bool(truth) => Ok(Constant::Bool(*truth)),
        Constant::Int(number) => Ok(Constant::Int(*number)),
        Constant::Name(name) => Ok(Constant::Name(name.copy(alloc)?)),
        Constant::Text(text) => Ok(Constant::Text(text.copy(alloc)?)),
        Constant::Pair(pair) => {
            let pair = copy_pair(alloc, pair.get())?;
            Ok(Constant::Pair(Boxed::new(alloc, pair)?))
        }
    }
}

#[cycle(copying)]
fn copy_pair(alloc: Global, pair: &LiteralPair) -> Result<LiteralPair, NoMemory>
    ensures { IfOk result (λ copy. copy ≡ pair.now) }
{
    let left = copy_literal(alloc, &pair.left)?;
    let right = copy_literal(alloc, &pair.right)?;
    Ok(LiteralPair { left, right })
}
