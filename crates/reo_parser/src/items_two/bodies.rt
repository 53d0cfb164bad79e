//! Reading the items of connectors.
ghost use Rattle.std.specs.Prelude.{◌≡◌, ℕ, List};
ghost use Rattle.reo_grammar.specs.Grammar.{read, reads};
ghost use Rattle.reo_cursor.specs.Reading.{Gives};
ghost use Rattle.reo_trees.specs.ItemsTwo.{some_item_two, item_two, items_two};
ghost use Rattle.reo_trees.specs.Rules.{circuit_rules};

use crate::items_two::loops::some_looped;
use crate::items_two::nodes::declared;
use reo_cursor::{Cursor, Halt};
use reo_trees::{FormTwo, ItemTwo};
use reo_values::List;
use std::alloc::Global;

fn some_item(cursor: &mut Cursor, alloc: Global, room: usize) -> Result<FormTwo, Halt>
    ensures { Gives result cursor.new (read (reads circuit_rules room) some_item_two cursor.old) }
{
    if cursor.is(b"node") {
        declared(cursor, alloc, room)
    } else {
        some_looped(cursor, alloc, room)
    }
}

fn item(cursor: &mut Cursor, alloc: Global, room: usize) -> Result<ItemTwo, Halt>
    ensures { Gives result cursor.new (read (reads circuit_rules room) item_two cursor.old) }
{
    let line = cursor.line();
    let form = some_item(cursor, alloc, room)?;
    Ok(ItemTwo { line, form })
}

/// The items of a connector, up to a `}` or the end, with rules nested at most `room` deep.
///
/// # Errors
///
/// `Syntax`: no item goes on with the next token, which stays the next one. `Room`: rules are
/// nested deeper. `NoMemory`: out of memory.
pub fn items(cursor: &mut Cursor, alloc: Global, room: usize) -> Result<List<ItemTwo>, Halt>
    ensures { Gives result cursor.new (read (reads circuit_rules room) items_two cursor.old) }
{
    let mut items = List::new(alloc);
    'items: while cursor.is_other(b"}") {
        let next = item(cursor, alloc, room)?;
        items.push(next)?;
    }
    Ok(items)
}
