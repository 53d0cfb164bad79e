//! Where connectors of a name stand first, with a number and without.
ghost use Rattle.std.specs.Prelude.{◌≡◌, ◌≤◌, ◌<◌, ◌+◌, true, false, ℕ, IfOk, OnOk, length, take, flat_map};
ghost use Rattle.reo_expand.specs.base.Steps.{two_in, of_name};
ghost use Rattle.reo_expand.specs.tables.Firsts.{is_unfit};
ghost use Rattle.reo_expand.specs.tables.Knows.{AreFirst, Knows};

use crate::tables::FirstPlaces;
use reo_trees::DeclarationTwo;
use reo_values::NoMemory;
use std::alloc::Global;

/// For each name where its first connector with a number stands, and its first without.
#[derive(Drop)]
pub struct Firsts {
    pub numbered: FirstPlaces,
    pub plain: FirstPlaces,
}

impl Firsts {
    /// One declaration more. `NoMemory` means out of memory.
    fn note(
        &mut self,
        alloc: Global,
        declarations: &[DeclarationTwo],
        place: usize,
    ) -> Result<(), NoMemory>
        requires place { place < length declarations.now }
        requires numbered { AreFirst true (take place declarations.now) self.old.numbered }
        requires plain { AreFirst false (take place declarations.now) self.old.plain }
        ensures numbered { OnOk result (AreFirst true (take (place + 1) declarations.now)
            self.new.numbered) }
        ensures plain { OnOk result (AreFirst false (take (place + 1) declarations.now)
            self.new.plain) }
    {
        match &declarations[place] {
            DeclarationTwo::Named { .. } => Ok(()),
            DeclarationTwo::Made(connector) => match &connector.number {
                Some(_) => {
                    self.numbered.note(alloc, connector.name.as_slice(), place)?;
                    Ok(())
                }
                None => {
                    self.plain.note(alloc, connector.name.as_slice(), place)?;
                    Ok(())
                }
            },
        }
    }

    /// Those of these declarations. `NoMemory` means out of memory.
    pub fn new(alloc: Global, declarations: &[DeclarationTwo]) -> Result<Firsts, NoMemory>
        ensures { IfOk result (λ f. (p : ℕ) → p ≤ length declarations.now → Knows (take p
            declarations.now) f) }
    {
        let mut firsts = Firsts {
            numbered: FirstPlaces::new(alloc),
            plain: FirstPlaces::new(alloc),
        };
        for place in 0..declarations.len() {
            firsts.note(alloc, declarations, place)?;
        }
        Ok(firsts)
    }

    /// Whether connectors of the name stand among these declarations, which are the first ones,
    /// and none of them has a number, where a use gives one, or each has one, where it gives none.
    pub fn is_unfit(&self, before: &[DeclarationTwo], name: &[u8], with_number: bool) -> bool
        requires { Knows before.now self.now }
        ensures { result ≡ is_unfit with_number (of_name (flat_map two_in before.now) name.now) }
    {
        let numbered = self.numbered.is_before(name, before.len());
        let plain = self.plain.is_before(name, before.len());
        if with_number {
            plain && !numbered
        } else {
            numbered && !plain
        }
    }
}
