//! Types and parameters are copied whole.
ghost use Rattle.std.specs.Prelude.{◌≡◌, IfOk};

use crate::{Parameter, Shape, TypePair, TypeTerm};
use reo_values::{Boxed, Copies, NoMemory};
use std::alloc::Global;

impl Copies for TypeTerm {
    fn copied(&self, alloc: Global) -> Result<Self, NoMemory> {
        copy_type(alloc, self)
    }
}

impl Copies for Parameter {
    fn copied(&self, alloc: Global) -> Result<Self, NoMemory> {
        let name = self.name.copy(alloc)?;
        let term = copy_type(alloc, &self.term)?;
        Ok(Parameter {
            line: self.line,
            inward: self.inward,
            name,
            term,
        })
    }
}

#[cycle(copying)]
fn copy_type(alloc: Global, term: &TypeTerm) -> Result<TypeTerm, NoMemory>
    ensures { IfOk result (λ copy. copy ≡ term.now) }
{
    let shape = copy_shape(alloc, &term.shape)?;
    Ok(TypeTerm {
        line: term.line,
        shape,
    })
}

#[cycle(copying)]
fn copy_shape(alloc: Global, shape: &Shape) -> Result<Shape, NoMemory>
    ensures { IfOk result (λ copy. copy ≡ shape.now) }
{
    match shape {
        Shape::Unit => Ok(Shape::Unit),
        Shape::Bool => Ok(Shape::Bool),
        Shape::Int(low, high) => Ok(Shape::Int(*low, *high)),
        Shape::Sym(names) => Ok(Shape::Sym(names.share()?)),
        Shape::Text(most) => Ok(Shape::Text(*most)),
        Shape::Pair(pair) => {
            let pair = copy_pair(alloc, pair.get())?;
            Ok(Shape::Pair(Boxed::new(alloc, pair)?))
        }
        Shape::Named(name) => Ok(Shape::Named(name.copy(alloc)?)),
    }
}

#[cycle(copying)]
fn copy_pair(alloc: Global, pair: &TypePair) -> Result<TypePair, NoMemory>
    ensures { IfOk result (λ copy. copy ≡ pair.now) }
{
    let left = copy_type(alloc, &pair.left)?;
    let right = copy_type(alloc, &pair.right)?;
    Ok(TypePair { left, right })
}
