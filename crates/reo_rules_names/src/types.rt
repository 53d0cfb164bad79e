//! Types by name, with the symbols of those that are sym types.
ghost use Rattle.std.specs.Prelude.{◌≡◌, [], ◌∷◌, ◌++◌, IfOk, OnOk, List, None, length, MatchOption};
ghost use Rattle.reo_rules.specs.Types.{Typed, type_named, resolved};
ghost use Rattle.reo_rules_names.specs.SameNames.{SameNames};
ghost use Rattle.reo_rules_names.specs.Values.{value_at};

use reo_rules::Names;
use reo_trees::Shape;
use reo_values::{Bytes, List, NoMemory};
use std::alloc::Global;

/// The types that were declared so far: the name of each, and the number of its set of symbols
/// where it is a sym type. A type that names another shares the set of that one.
#[derive(Drop)]
pub(crate) struct DeclaredTypes {
    pub(crate) names: Names,
    numbers: List<Option<usize>>,
    sets: List<Names>,
}

impl DeclaredTypes {
    ghost use Rattle.reo_rules_names.specs.Symbols.{AreTypes, IsSetOf, LacksNone, LacksOthers};

    /// No types.
    pub(crate) fn new(alloc: Global) -> Self
        ensures { AreTypes [] result }
    {
        DeclaredTypes {
            names: Names::new(alloc),
            numbers: List::new(alloc),
            sets: List::new(alloc),
        }
    }

    /// The number of the symbols of the type of this name, or None where it has none.
    fn number_of(&self, name: &[u8]) -> Option<usize>
        ensures { length self.now.names ≡ length self.now.numbers
            → result ≡ value_at None self.now.names self.now.numbers name.now }
    {
        match self.names.find(name) {
            Some(place) => match self.numbers.get(place) {
                Some(number) => *number,
                None => None,
            },
            None => None,
        }
    }

    /// The symbols of the first type of this name, or None where it is no sym type.
    pub(crate) fn symbols(&self, name: &[u8]) -> Option<&Names>
        ensures { (known : List Typed) → AreTypes known self.now
            → MatchOption result (LacksNone (type_named known name.now))
            (λ set. LacksOthers (type_named known name.now) set.now) }
    {
        match self.number_of(name) {
            Some(number) => self.sets.get(number),
            None => None,
        }
    }

    /// The number of the symbols of a written type, by the types so far. A new set is kept.
    /// `NoMemory` is out of memory.
    fn number(&mut self, alloc: Global, shape: &Shape) -> Result<Option<usize>, NoMemory>
        ensures { IfOk result (λ number. (known : List Typed) → AreTypes known self.old
            → AreTypes known self.new × IsSetOf self.new.sets number (resolved known shape.now)) }
    {
        match shape {
            Shape::Sym(symbols) => {
                let set = set_of(alloc, symbols.get().as_slice())?;
                let number = self.sets.len();
                self.sets.push(set)?;
                Ok(Some(number))
            }
            Shape::Named(name) => Ok(self.number_of(name.as_slice())),
            Shape::Pair(_) => Ok(None),
            Shape::Unit | Shape::Bool | Shape::Int(_, _) | Shape::Text(_) => Ok(None),
        }
    }

    /// One more type. `NoMemory` is out of memory.
    pub(crate) fn add(&mut self, alloc: Global, name: &Bytes, shape: &Shape) -> Result<(), NoMemory>
        ensures { OnOk result ((known : List Typed) → AreTypes known self.old
            → AreTypes (known ++ record { name = name.now; kindred = resolved known shape.now }
            ∷ []) self.new) }
    {
        let number = self.number(alloc, shape)?;
        if self.names.note(alloc, name.as_slice())? {
            return Ok(());
        }
        self.numbers.push(number)
    }
}

/// The set of these names. `NoMemory` is out of memory.
fn set_of(alloc: Global, names: &[Bytes]) -> Result<Names, NoMemory>
    ensures { IfOk result (λ set. SameNames set names.now) }
{
    let mut set = Names::new(alloc);
    for name in names {
        set.note(alloc, name.as_slice())?;
    }
    Ok(set)
}
