//! The names of the connectors that declarations use.
ghost use Rattle.std.specs.Prelude.{◌≡◌, ◌||◌, ℕ, List, OnOk};
ghost use Rattle.reo_rules.specs.Lists.{has_name};
ghost use Rattle.reo_expand.specs.base.Expansion.{has_use, connector_in, connectors_of};

use crate::uses::Uses;
use reo_trees::Declaration;
use reo_values::NoMemory;
use std::alloc::Global;

/// The names that a declaration uses. `NoMemory` means out of memory.
fn note_one(uses: &mut Uses, alloc: Global, declaration: &Declaration) -> Result<(), NoMemory>
    ensures { (n : List ℕ) → OnOk result (has_name uses.new.names n
        ≡ (has_name uses.old.names n || has_use (connector_in declaration.now) n)) }
{
    match declaration {
        Declaration::Named { .. } => Ok(()),
        Declaration::Made(connector) => uses.note(alloc, connector.items.as_slice()),
    }
}

/// The names that these declarations use. `NoMemory` means out of memory.
pub(crate) fn note(
    uses: &mut Uses,
    alloc: Global,
    declarations: &[Declaration],
) -> Result<(), NoMemory>
    ensures { (n : List ℕ) → OnOk result (has_name uses.new.names n
        ≡ (has_name uses.old.names n || has_use (connectors_of declarations.now) n)) }
{
    for declaration in declarations {
        note_one(uses, alloc, declaration)?;
    }
    Ok(())
}
