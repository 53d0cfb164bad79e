//! What declarations from a place on stand for.
ghost use Rattle.std.specs.Prelude.{◌≡◌, ◌<◌, ◌+◌, MatchResult, length, take};
ghost use Rattle.reo_expand.specs.base.Steps.{IsUnexpanded};
ghost use Rattle.reo_expand.specs.tables.Knows.{Knows};
ghost use Rattle.reo_expand.specs.programs.Behind.{IsBehind};

use crate::base::ExpandFault;
use crate::items::Walk;
use crate::programs::families::declared;
use crate::programs::noting::note;
use crate::programs::turned::turned;
use crate::tables::Firsts;
use crate::uses::Uses;
use reo_trees::{Declaration, DeclarationTwo};
use reo_values::List;
use std::alloc::Global;

/// What the declarations from a place on stand for, from the last to the first, the names that it
/// uses, and what was counted.
#[derive(Drop)]
pub(crate) struct Behind {
    pub(crate) walk: Walk,
    pub(crate) uses: Uses,
    pub(crate) made: List<Declaration>,
}

impl Behind {
    /// Nothing stands behind the last declaration.
    pub(crate) fn new(alloc: Global, declarations: &[DeclarationTwo]) -> Behind
        ensures { IsBehind declarations.now (length declarations.now) result }
    {
        Behind {
            walk: Walk::new(),
            uses: Uses::new(alloc),
            made: List::new(alloc),
        }
    }

    /// One declaration more, the one at this place. Otherwise the first refusal that is met.
    pub(crate) fn add(
        &mut self,
        alloc: Global,
        firsts: &Firsts,
        declarations: &[DeclarationTwo],
        place: usize,
    ) -> Result<(), ExpandFault>
        requires place { place < length declarations.now }
        requires known { Knows (take place declarations.now) firsts.now }
        requires behind { IsBehind declarations.now (place + 1) self.old }
        ensures { MatchResult result (λ x. IsBehind declarations.now place self.new)
            (IsUnexpanded (record { declarations = declarations.now })) }
    {
        let before = &declarations[..place];
        let walk = &mut self.walk;
        let next = declared(
            walk,
            alloc,
            firsts,
            &self.uses,
            before,
            &declarations[place],
        )?;
        note(&mut self.uses, alloc, next.as_slice())?;
        self.made.append(turned(next))?;
        Ok(())
    }
}
