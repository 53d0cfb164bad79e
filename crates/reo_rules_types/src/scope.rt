//! Names with the numbers of their types.
ghost use Rattle.std.specs.Prelude.{◌≡◌, ◌∷◌, ◌++◌, [], false, OnOk};
ghost use Rattle.std.specs.Map.{keys_of};
ghost use Rattle.reo_rules.specs.Lists.{has_name};
ghost use Rattle.reo_rules_types.specs.Scoped.{number_named};

use indexmap::IndexMap;
use reo_values::NoMemory;
use std::alloc::Global;
use std::marker::Model;

/// Names, each with a number. A name that is not there has the number 0.
#[derive(Drop)]
pub(crate) struct Scope {
    numbers: IndexMap<Vec<u8>, usize>,
}

impl Model for Scope {
    ghost use Rattle.std.specs.Prelude.{List, ℕ, map};

    ghost Value = { List (List ℕ × ℕ) };

    ghost view = { λ s. map (λ e. (e.0.items, e.1)) s.numbers.entries };
}

impl Scope {
    /// No names.
    pub(crate) fn new(alloc: Global) -> Self
        ensures { result ≡ [] }
    {
        Scope {
            numbers: IndexMap::new(alloc),
        }
    }

    /// The number of a name.
    pub(crate) fn find(&self, name: &[u8]) -> usize
        ensures { result ≡ number_named self.now name.now }
    {
        match self.numbers.get(name) {
            Some(number) => *number,
            None => 0,
        }
    }

    /// Adds a name that is not there. `NoMemory` means out of memory.
    pub(crate) fn add(&mut self, alloc: Global, name: &[u8], number: usize) -> Result<(), NoMemory>
        requires { has_name (keys_of self.old) name.now ≡ false }
        ensures { OnOk result (self.new ≡ self.old ++ (name.now, number) ∷ []) }
    {
        let Ok(name) = Vec::from_slice(alloc, name) else {
            return Err(NoMemory);
        };
        match self.numbers.insert(name, number) {
            Ok(_) => Ok(()),
            Err(_) => Err(NoMemory),
        }
    }
}
