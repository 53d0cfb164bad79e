//! Reading nodes and arrays of nodes.
ghost use Rattle.std.specs.Prelude.{◌≡◌, ℕ, Option, List};
ghost use Rattle.reo_grammar.specs.Grammar.{read, reads};
ghost use Rattle.reo_cursor.specs.Reading.{Gives};
ghost use Rattle.reo_trees.specs.ItemsTwo.{size_form, node_two};
ghost use Rattle.reo_trees.specs.Rules.{circuit_rules};
ghost use Rattle.reo_terms.specs.Reading.{read_plain};

use crate::items_two::indexes::index_before;
use reo_cursor::{Cursor, Halt};
use reo_terms::type_before;
use reo_trees::{FormTwo, Index};
use std::alloc::Global;

/// The size of an array, if it is one.
fn size(cursor: &mut Cursor, alloc: Global) -> Result<Option<Index>, Halt>
    ensures { Gives result cursor.new (read_plain size_form cursor.old) }
{
    if cursor.is(b".") {
        cursor.expect(b".")?;
        cursor.expect(b"(")?;
        let size = index_before(cursor, alloc, b")")?;
        Ok(Some(size))
    } else {
        Ok(None)
    }
}

/// A node or an array of nodes, with rules nested at most `room` deep.
pub(crate) fn declared(cursor: &mut Cursor, alloc: Global, room: usize) -> Result<FormTwo, Halt>
    ensures { Gives result cursor.new (read (reads circuit_rules room) node_two cursor.old) }
{
    cursor.expect(b"node")?;
    let name = cursor.name(alloc)?;
    let size = size(cursor, alloc)?;
    cursor.expect(b":")?;
    let term = type_before(cursor, alloc, room, b";")?;
    Ok(FormTwo::Node { name, size, term })
}
