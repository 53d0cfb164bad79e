//! The names of connectors that items use.
ghost use Rattle.std.specs.Prelude.{◌≡◌, ◌||◌, ℕ, List, [], IfOk, OnOk};
ghost use Rattle.std.specs.List.{list_any};
ghost use Rattle.reo_trees.specs.declared.items.Item.{Item as AnItem};
ghost use Rattle.reo_rules.specs.Lists.{has_name};
ghost use Rattle.reo_expand.specs.base.Expansion.{is_use_of};
ghost use Rattle.reo_expand.specs.uses.Numbers.{numbers_below};

use crate::parts::numbered_name;
use reo_rules::Names;
use reo_trees::{Item, ItemForm};
use reo_values::{List, NoMemory};
use std::alloc::Global;

/// One more than the greatest number of a connector.
const NUMBERS: u16 = 4097;

/// The names of connectors that are used.
#[derive(Drop)]
pub struct Uses {
    pub names: Names,
}

impl Uses {
    /// No names.
    pub fn new(alloc: Global) -> Uses
        ensures { result.names ≡ [] }
    {
        Uses {
            names: Names::new(alloc),
        }
    }

    /// The name of the connector that an item uses, if it uses one. `NoMemory` means out of memory.
    fn note_item(&mut self, alloc: Global, item: &Item) -> Result<(), NoMemory>
        ensures { (n : List ℕ) → OnOk result (has_name self.new.names n
            ≡ (has_name self.old.names n || is_use_of n item.now.form)) }
    {
        match &item.form {
            ItemForm::Node { .. } => Ok(()),
            ItemForm::Joined { .. } => Ok(()),
            ItemForm::Used { name, .. } => {
                self.names.note(alloc, name.as_slice())?;
                Ok(())
            }
        }
    }

    /// The names that these items use. `NoMemory` means out of memory.
    pub fn note(&mut self, alloc: Global, items: &[Item]) -> Result<(), NoMemory>
        ensures { (n : List ℕ) → OnOk result (has_name self.new.names n
            ≡ (has_name self.old.names n
            || list_any (λ (i : AnItem). is_use_of n i.form) items.now)) }
    {
        for item in items {
            self.note_item(alloc, item)?;
        }
        Ok(())
    }

    /// The numbers with which the name is used, from 0 to 4,096, in increasing order. `NoMemory`
    /// means out of memory.
    pub fn numbers(&self, alloc: Global, name: &[u8]) -> Result<List<u16>, NoMemory>
        ensures { IfOk result (λ ks. ks ≡ numbers_below 4097 self.now.names name.now) }
    {
        let mut numbers = List::new(alloc);
        for number in 0..NUMBERS {
            let next = numbered_name(alloc, name, number as i64)?;
            if self.names.has(next.as_slice()) {
                numbers.push(number)?;
            }
        }
        Ok(numbers)
    }
}
