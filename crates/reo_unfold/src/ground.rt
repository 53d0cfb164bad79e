//! What the unfolding reads of a program: its types and connectors by name.
ghost use Rattle.std.specs.Prelude.{◌≡◌, ◌<◌, ◌+◌, List, [], ◌∷◌, ◌++◌, IfOk, OnOk, false, length, take};
ghost use Rattle.reo_rules.specs.Lists.{has_name};
ghost use Rattle.reo_rules.specs.Twice.{twice};
ghost use Rattle.reo_flat.specs.Unfolding.{Meaning};
ghost use Rattle.reo_flat.specs.Counts.{AreSizes};
ghost use Rattle.reo_unfold.specs.Ground.{IsGround, AddsSizes};

use crate::counts::connector_sizes;
use crate::types::NamedTypes;
use reo_flat::Sizes;
use reo_rules::Names;
use reo_trees::{Connector, Declaration};
use reo_values::{List, NoMemory};
use std::alloc::Global;

/// Where a connector stands: the place of its declaration, and how many types are declared before.
#[derive(Clone, Copy)]
pub struct Stand {
    pub place: usize,
    pub types: usize,
}

/// Types and connectors by name, with the stand of each connector and what it unfolds to.
#[derive(Drop)]
pub struct Ground {
    pub types: NamedTypes,
    pub connectors: Names,
    pub stands: List<Stand>,
    pub sizes: List<Sizes>,
}

impl Ground {
    /// One connector more, whose name is not there yet.
    fn make(&mut self, alloc: Global, place: usize, connector: &Connector) -> Result<(), NoMemory>
        requires new { has_name self.old.connectors connector.now.name ≡ false }
        requires even { length self.old.sizes ≡ length self.old.connectors }
        ensures types { OnOk result (self.new.types ≡ self.old.types) }
        ensures names { OnOk result (self.new.connectors
            ≡ self.old.connectors ++ connector.now.name ∷ []) }
        ensures stands { OnOk result (self.new.stands
            ≡ self.old.stands ++ record { place = place; types = length self.old.types.kindreds }
            ∷ []) }
        ensures sizes { (known : List Meaning) → AreSizes known self.old.connectors self.old.sizes
            → OnOk result (AddsSizes known connector.now.items self.old.sizes self.new.sizes) }
    {
        let sizes = connector_sizes(
            &self.connectors,
            self.sizes.as_slice(),
            connector.items.as_slice(),
        );
        let types = self.types.kindreds.len();
        self.connectors.note(alloc, connector.name.as_slice())?;
        self.sizes.push(sizes)?;
        self.stands.push(Stand { place, types })?;
        Ok(())
    }

    /// One declaration more.
    fn declare(
        &mut self,
        alloc: Global,
        declarations: &[Declaration],
        place: usize,
    ) -> Result<(), NoMemory>
        requires place { place < length declarations.now }
        requires ground { IsGround (take place declarations.now) self.old }
        requires once { twice declarations.now ≡ [] }
        ensures { OnOk result (IsGround (take (place + 1) declarations.now) self.new) }
    {
        match &declarations[place] {
            Declaration::Named { name, term, .. } => {
                self.types.declare(alloc, name, &term.shape)?;
                Ok(())
            }
            Declaration::Made(connector) => {
                self.make(alloc, place, connector)?;
                Ok(())
            }
        }
    }
}

/// The ground of a program in which no name stands twice. `NoMemory`: out of memory.
pub fn ground_of(alloc: Global, declarations: &[Declaration]) -> Result<Ground, NoMemory>
    requires { twice declarations.now ≡ [] }
    ensures { IfOk result (IsGround declarations.now) }
{
    let mut ground = Ground {
        types: NamedTypes::new(alloc),
        connectors: Names::new(alloc),
        stands: List::new(alloc),
        sizes: List::new(alloc),
    };
    for place in 0..declarations.len() {
        ground.declare(alloc, declarations, place)?;
    }
    Ok(ground)
}
