//! Reading channels with the nodes that they join.
ghost use Rattle.std.specs.Prelude.{◌≡◌, ℕ, List};
ghost use Rattle.reo_grammar.specs.Grammar.{read, reads};
ghost use Rattle.reo_cursor.specs.Reading.{Gives};
ghost use Rattle.reo_trees.specs.Rules.{circuit_rules};
ghost use Rattle.reo_trees.specs.Indexes.{ref_form};
ghost use Rattle.reo_trees.specs.Channels.{plain_between, fifo1_between, fifo_between, filter_between, map_between};
ghost use Rattle.reo_trees.specs.ItemsTwo.{join_two};
ghost use Rattle.reo_terms.specs.Reading.{read_plain};

use crate::items_two::indexes::{node, node_before};
use crate::{held, held_list, plain_channel};
use reo_cursor::{Cursor, Halt};
use reo_terms::term_before;
use reo_trees::{Channel, FormTwo};
use std::alloc::Global;

/// The greatest size of a buffer.
pub(crate) const MOST_PLACES: u64 = 1024;

/// A channel that is a word and two nodes.
pub(crate) fn plain(cursor: &mut Cursor, alloc: Global) -> Result<FormTwo, Halt>
    ensures { Gives result cursor.new (read_plain (plain_between ref_form join_two) cursor.old) }
{
    let channel = plain_channel(cursor)?;
    let first = node(cursor, alloc)?;
    let second = node_before(cursor, alloc, b";")?;
    Ok(FormTwo::Joined {
        channel,
        first,
        second,
    })
}

/// A buffer with one place and what it holds at first, with rules nested at most `room` deep.
pub(crate) fn fifo1(cursor: &mut Cursor, alloc: Global, room: usize) -> Result<FormTwo, Halt>
    ensures { Gives result cursor.new
        (read (reads circuit_rules room) (fifo1_between ref_form join_two) cursor.old) }
{
    cursor.expect(b"fifo1")?;
    let first = node(cursor, alloc)?;
    let second = node(cursor, alloc)?;
    let held = held(cursor, alloc, room)?;
    cursor.expect(b";")?;
    Ok(FormTwo::Joined {
        channel: Channel::Fifo1(held),
        first,
        second,
    })
}

/// A buffer with a size and what it holds at first, with rules nested at most `room` deep.
pub(crate) fn fifo(cursor: &mut Cursor, alloc: Global, room: usize) -> Result<FormTwo, Halt>
    ensures { Gives result cursor.new
        (read (reads circuit_rules room) (fifo_between ref_form join_two) cursor.old) }
{
    cursor.expect(b"fifo")?;
    let size = cursor.number(1, MOST_PLACES)?;
    let first = node(cursor, alloc)?;
    let second = node(cursor, alloc)?;
    let held = held_list(cursor, alloc, room)?;
    cursor.expect(b";")?;
    Ok(FormTwo::Joined {
        channel: Channel::Fifo(size as u16, held),
        first,
        second,
    })
}

/// A filter with its test, with rules nested at most `room` deep.
pub(crate) fn filter(cursor: &mut Cursor, alloc: Global, room: usize) -> Result<FormTwo, Halt>
    ensures { Gives result cursor.new
        (read (reads circuit_rules room) (filter_between ref_form join_two) cursor.old) }
{
    cursor.expect(b"filter")?;
    let first = node(cursor, alloc)?;
    let second = node_before(cursor, alloc, b"when")?;
    let test = term_before(cursor, alloc, room, b";")?;
    Ok(FormTwo::Joined {
        channel: Channel::Filter(test),
        first,
        second,
    })
}

/// A map with its value, with rules nested at most `room` deep.
pub(crate) fn map(cursor: &mut Cursor, alloc: Global, room: usize) -> Result<FormTwo, Halt>
    ensures { Gives result cursor.new
        (read (reads circuit_rules room) (map_between ref_form join_two) cursor.old) }
{
    cursor.expect(b"map")?;
    let first = node(cursor, alloc)?;
    let second = node_before(cursor, alloc, b"to")?;
    let value = term_before(cursor, alloc, room, b";")?;
    Ok(FormTwo::Joined {
        channel: Channel::Map(value),
        first,
        second,
    })
}
