//! Names, each with the place at which it was noted first.
ghost use Rattle.std.specs.Prelude.{◌≡◌, ◌<◌, ℕ, List, [], IfOk, OnOk, length, bytes_eq, cond, Some, None};
ghost use Rattle.reo_expand.specs.tables.Firsts.{place_in, or_else, is_before};

use reo_rules::Names;
use reo_values::{List, NoMemory};
use std::alloc::Global;

/// Names, each with the place at which it was noted first.
#[derive(Drop)]
pub struct FirstPlaces {
    pub names: Names,
    pub places: List<usize>,
}

impl FirstPlaces {
    /// No names.
    pub fn new(alloc: Global) -> FirstPlaces
        ensures names { result.names ≡ [] }
        ensures places { result.places ≡ [] }
    {
        FirstPlaces {
            names: Names::new(alloc),
            places: List::new(alloc),
        }
    }

    /// One name more: one that is there keeps its place. `NoMemory` means out of memory.
    pub fn note(&mut self, alloc: Global, name: &[u8], place: usize) -> Result<(), NoMemory>
        requires { length self.old.places ≡ length self.old.names }
        ensures even { OnOk result (length self.new.places ≡ length self.new.names) }
        ensures noted { (n : List ℕ) → OnOk result (place_in self.new.names self.new.places n
            ≡ or_else (place_in self.old.names self.old.places n)
            (cond (bytes_eq n name.now) (Some place) None)) }
    {
        let there = self.names.note(alloc, name)?;
        if there {
            return Ok(());
        }
        self.places.push(place)?;
        Ok(())
    }

    /// Whether the name was noted at a place before this one.
    pub fn is_before(&self, name: &[u8], place: usize) -> bool
        requires { length self.now.places ≡ length self.now.names }
        ensures { result ≡ is_before (place_in self.now.names self.now.places name.now) place }
    {
        match self.names.find(name) {
            Some(number) => *self.places.at(number) < place,
            None => false,
        }
    }
}
