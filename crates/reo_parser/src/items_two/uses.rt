//! Reading uses of connectors.
ghost use Rattle.std.specs.Prelude.{◌≡◌, ℕ, Option, List};
ghost use Rattle.reo_cursor.specs.Reading.{Gives};
ghost use Rattle.reo_trees.specs.ItemsTwo.{number_two, arguments_two, use_two};
ghost use Rattle.reo_terms.specs.Reading.{read_plain};

use crate::items_two::indexes::{index_before, node};
use reo_cursor::{Cursor, Halt};
use reo_trees::{FormTwo, Index, Ref};
use reo_values::List;
use std::alloc::Global;

/// The number of a use, if it has one.
fn number(cursor: &mut Cursor, alloc: Global) -> Result<Option<Index>, Halt>
    ensures { Gives result cursor.new (read_plain number_two cursor.old) }
{
    if cursor.is(b"<") {
        cursor.expect(b"<")?;
        let number = index_before(cursor, alloc, b">")?;
        Ok(Some(number))
    } else {
        Ok(None)
    }
}

fn arguments(cursor: &mut Cursor, alloc: Global) -> Result<List<Ref>, Halt>
    ensures { Gives result cursor.new (read_plain arguments_two cursor.old) }
{
    let mut arguments = List::new(alloc);
    if cursor.is_name() {
        let first = node(cursor, alloc)?;
        arguments.push(first)?;
        'arguments: while cursor.is(b",") {
            cursor.expect(b",")?;
            let next = node(cursor, alloc)?;
            arguments.push(next)?;
        }
    }
    Ok(arguments)
}

/// The use of a connector.
pub(crate) fn used(cursor: &mut Cursor, alloc: Global) -> Result<FormTwo, Halt>
    ensures { Gives result cursor.new (read_plain use_two cursor.old) }
{
    cursor.expect(b"use")?;
    let name = cursor.name(alloc)?;
    let number = number(cursor, alloc)?;
    cursor.expect(b"(")?;
    let arguments = arguments(cursor, alloc)?;
    cursor.expect(b")")?;
    cursor.expect(b";")?;
    Ok(FormTwo::Used {
        name,
        number,
        arguments,
    })
}
