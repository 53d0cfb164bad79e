//! Reading the channels that texts of version 2 alone have.
ghost use Rattle.std.specs.Prelude.{◌≡◌, ℕ, List};
ghost use Rattle.reo_grammar.specs.Grammar.{read, reads};
ghost use Rattle.reo_cursor.specs.Reading.{Gives};
ghost use Rattle.reo_trees.specs.Rules.{circuit_rules};
ghost use Rattle.reo_trees.specs.ItemsTwo.{shift_two, variable_two, quota_two};
ghost use Rattle.reo_terms.specs.Reading.{read_plain};

use crate::items_two::channels::MOST_PLACES;
use crate::items_two::indexes::{node, node_before};
use crate::{held, held_list};
use reo_cursor::{Cursor, Halt};
use reo_trees::{Channel, FormTwo};
use std::alloc::Global;

/// The greatest number of items that a quota lets through.
const MOST_ITEMS: u64 = 1_000_000_000;

/// A shift buffer with a size and what it holds at first, with rules nested at most `room` deep.
pub(crate) fn shift(cursor: &mut Cursor, alloc: Global, room: usize) -> Result<FormTwo, Halt>
    ensures { Gives result cursor.new (read (reads circuit_rules room) shift_two cursor.old) }
{
    cursor.expect_named(b"shift")?;
    let size = cursor.number(1, MOST_PLACES)?;
    let first = node(cursor, alloc)?;
    let second = node(cursor, alloc)?;
    let held = held_list(cursor, alloc, room)?;
    cursor.expect(b";")?;
    Ok(FormTwo::Joined {
        channel: Channel::Shift(size as u16, held),
        first,
        second,
    })
}

/// A variable and what it holds at first, with rules nested at most `room` deep.
pub(crate) fn variable(cursor: &mut Cursor, alloc: Global, room: usize) -> Result<FormTwo, Halt>
    ensures { Gives result cursor.new (read (reads circuit_rules room) variable_two cursor.old) }
{
    cursor.expect_named(b"variable")?;
    let first = node(cursor, alloc)?;
    let second = node(cursor, alloc)?;
    let held = held(cursor, alloc, room)?;
    cursor.expect(b";")?;
    Ok(FormTwo::Joined {
        channel: Channel::Variable(held),
        first,
        second,
    })
}

/// A quota with how many items it lets through.
pub(crate) fn quota(cursor: &mut Cursor, alloc: Global) -> Result<FormTwo, Halt>
    ensures { Gives result cursor.new (read_plain quota_two cursor.old) }
{
    cursor.expect_named(b"quota")?;
    let items = cursor.number(0, MOST_ITEMS)?;
    let first = node(cursor, alloc)?;
    let second = node_before(cursor, alloc, b";")?;
    Ok(FormTwo::Joined {
        channel: Channel::Quota(items as u32),
        first,
        second,
    })
}
