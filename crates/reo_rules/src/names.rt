//! Names that were seen.
ghost use Rattle.std.specs.Prelude.{◌≡◌, [], IfOk, OnOk, OnErr, position, bytes_eq};
ghost use Rattle.reo_rules.specs.Lists.{has_name};
ghost use Rattle.reo_rules.specs.Names.{with_name};

use indexmap::IndexSet;
use reo_values::NoMemory;
use std::alloc::Global;
use std::marker::Model;

/// Names, each once, in the order in which they were seen first.
#[derive(Drop)]
pub struct Names {
    set: IndexSet<Vec<u8>>,
}

impl Model for Names {
    ghost use Rattle.std.specs.Prelude.{List, ℕ, map};

    ghost Value = { List (List ℕ) };

    ghost view = { λ n. map (λ v. v.items) n.set.keys };
}

impl Names {
    /// No names.
    pub fn new(alloc: Global) -> Self
        ensures { result ≡ [] }
    {
        Names {
            set: IndexSet::new(alloc),
        }
    }

    /// The number of a name, or None where it is not there.
    pub fn find(&self, name: &[u8]) -> Option<usize>
        ensures { result ≡ position (bytes_eq name.now) self.now }
    {
        self.set.get_index_of(name)
    }

    /// Whether the name is there.
    pub fn has(&self, name: &[u8]) -> bool
        ensures { result ≡ has_name self.now name.now }
    {
        self.set.contains(name)
    }

    /// Whether the name is there already. Where it is not, it is added at the end. `NoMemory` is
    /// out of memory, and then the names stay as they were.
    pub fn note(&mut self, alloc: Global, name: &[u8]) -> Result<bool, NoMemory>
        ensures there { IfOk result (λ b. b ≡ has_name self.old name.now) }
        ensures names { OnOk result (self.new ≡ with_name self.old name.now) }
        ensures unchanged { OnErr result (self.new ≡ self.old) }
    {
        let Ok(name) = Vec::from_slice(alloc, name) else {
            return Err(NoMemory);
        };
        let Ok((_, added)) = self.set.insert_full(name) else {
            return Err(NoMemory);
        };
        Ok(!added)
    }
}
