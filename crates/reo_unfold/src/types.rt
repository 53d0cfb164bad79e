//! Types by name, and what written types stand for.
ghost use Rattle.std.specs.Prelude.{◌≡◌, List, IfOk, IfSome, OnOk, [], ◌∷◌, ◌++◌, take, unwrap_or, false};
ghost use Rattle.std.specs.List.{All};
ghost use Rattle.std.specs.Option.{option_copied};
ghost use Rattle.reo_rules.specs.literals.Items.{HasFewNames};
ghost use Rattle.reo_rules.specs.Lists.{has_name};
ghost use Rattle.reo_rules.specs.Types.{Typed, type_named, resolved};
ghost use Rattle.reo_unfold.specs.Known.{AreTypes};
ghost use Rattle.reo_unfold.specs.Fits.{IsFew};

use reo_rules::Names;
use reo_trees::Shape;
use reo_values::{Bytes, Kindred, List, NoMemory, Shared, Twins, copy_kindred};
use std::alloc::Global;

/// Types by name, in the order in which they are declared.
#[derive(Drop)]
pub struct NamedTypes {
    pub names: Names,
    pub kindreds: List<Kindred>,
}

impl NamedTypes {
    /// No types.
    pub fn new(alloc: Global) -> Self
        ensures { AreTypes [] result }
    {
        NamedTypes {
            names: Names::new(alloc),
            kindreds: List::new(alloc),
        }
    }

    /// The type of a name among the first so many, if there is one.
    pub fn named(&self, known: usize, name: &[u8]) -> Option<&Kindred>
        ensures is { (ts : List Typed) → AreTypes ts self.now → type_named
            (take known ts) name.now ≡ unwrap_or (option_copied result) Kindred.Unit }
        ensures few { All HasFewNames self.now.kindreds → IfSome result
            (λ kindred. HasFewNames kindred.now) }
    {
        match self.names.find(name) {
            Some(number) => {
                if number < known {
                    self.kindreds.get(number)
                } else {
                    None
                }
            }
            None => None,
        }
    }

    /// One type more, whose name is not there yet. `NoMemory`: out of memory.
    pub fn declare(&mut self, alloc: Global, name: &Bytes, shape: &Shape) -> Result<(), NoMemory>
        requires { has_name self.old.names name.now ≡ false }
        ensures { (ts : List Typed) → AreTypes ts self.old → OnOk result (AreTypes
            (ts ++ record { name = name.now; kindred = resolved ts shape.now } ∷ []) self.new) }
    {
        let known = self.kindreds.len();
        let kindred = kindred_of(alloc, self, known, shape)?;
        self.names.note(alloc, name.as_slice())?;
        self.kindreds.push(kindred)
    }
}

/// The type that a written type stands for, by the first so many types. `NoMemory`: out of memory.
pub fn kindred_of(
    alloc: Global,
    types: &NamedTypes,
    known: usize,
    shape: &Shape,
) -> Result<Kindred, NoMemory>
    ensures is { (ts : List Typed) → AreTypes ts types.now → IfOk result (λ made. made ≡ resolved
        (take known ts) shape.now) }
    ensures few { All HasFewNames types.now.kindreds → IsFew shape.now → IfOk result HasFewNames }
{
    match shape {
        Shape::Unit => Ok(Kindred::Unit),
        Shape::Bool => Ok(Kindred::Bool),
        Shape::Int(low, high) => Ok(Kindred::Int(*low, *high)),
        Shape::Sym(names) => Ok(Kindred::Sym(names.share()?)),
        Shape::Text(most) => Ok(Kindred::Text(*most)),
        Shape::Pair(pair) => {
            let pair = pair.get();
            let left = kindred_of(alloc, types, known, &pair.left.shape)?;
            let right = kindred_of(alloc, types, known, &pair.right.shape)?;
            Ok(Kindred::Pair(Shared::new(alloc, Twins { left, right })?))
        }
        Shape::Named(name) => match types.named(known, name.as_slice()) {
            Some(kindred) => copy_kindred(kindred),
            None => Ok(Kindred::Unit),
        },
    }
}
