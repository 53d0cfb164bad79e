//! Reading channels with the nodes that they join.
ghost use Rattle.std.specs.Prelude.{◌≡◌, ℕ, List};
ghost use Rattle.reo_grammar.specs.Grammar.{read, reads, starts};
ghost use Rattle.reo_cursor.specs.Reading.{Gives};
ghost use Rattle.reo_trees.specs.Channels.{plain_channels, plain_channel as channel_form, plain_form, held_form, fifo1_form, literals_form, held_list as held_list_form, fifo_form, filter_form, map_form};
ghost use Rattle.reo_trees.specs.Rules.{circuit_rules};
ghost use Rattle.reo_terms.specs.Reading.{read_plain};

use reo_cursor::{Cursor, Halt};
use reo_terms::{literal, names_before, term_before};
use reo_trees::{Channel, ItemForm, Literal};
use reo_values::List;
use std::alloc::Global;

/// The greatest size of a buffer.
const MOST_PLACES: u64 = 1024;

/// Whether a channel that is a word and two nodes is next.
#[tactic(auto, using(reo_terms::proofs::Among::among_more))]
pub fn is_plain(cursor: &Cursor) -> bool
    ensures { result ≡ starts plain_channels cursor.now }
{
    cursor.is(b"sync") || cursor.is(b"lossy") || cursor.is(b"syncdrain") || cursor.is(b"asyncdrain")
}

/// The word of a channel that is a word and two nodes.
pub fn plain_channel(cursor: &mut Cursor) -> Result<Channel, Halt>
    ensures { Gives result cursor.new (read_plain channel_form cursor.old) }
{
    if cursor.is(b"sync") {
        cursor.expect(b"sync")?;
        Ok(Channel::Sync)
    } else if cursor.is(b"lossy") {
        cursor.expect(b"lossy")?;
        Ok(Channel::Lossy)
    } else if cursor.is(b"syncdrain") {
        cursor.expect(b"syncdrain")?;
        Ok(Channel::SyncDrain)
    } else {
        cursor.expect(b"asyncdrain")?;
        Ok(Channel::AsyncDrain)
    }
}

/// A channel that is a word and two nodes.
pub fn plain(cursor: &mut Cursor, alloc: Global) -> Result<ItemForm, Halt>
    ensures { Gives result cursor.new (read_plain plain_form cursor.old) }
{
    let channel = plain_channel(cursor)?;
    let (first, second) = names_before(cursor, alloc, b";")?;
    Ok(ItemForm::Joined {
        channel,
        first,
        second,
    })
}

/// The item that a buffer with one place holds at first, with rules nested at most `room` deep.
pub fn held(cursor: &mut Cursor, alloc: Global, room: usize) -> Result<Option<Literal>, Halt>
    ensures { Gives result cursor.new (read (reads circuit_rules room) held_form cursor.old) }
{
    if cursor.is(b"with") {
        cursor.expect(b"with")?;
        let item = literal(cursor, alloc, room)?;
        Ok(Some(item))
    } else {
        Ok(None)
    }
}

/// A buffer with one place and what it holds at first, with rules nested at most `room` deep.
pub fn fifo1(cursor: &mut Cursor, alloc: Global, room: usize) -> Result<ItemForm, Halt>
    ensures { Gives result cursor.new (read (reads circuit_rules room) fifo1_form cursor.old) }
{
    cursor.expect(b"fifo1")?;
    let first = cursor.name(alloc)?;
    let second = cursor.name(alloc)?;
    let held = held(cursor, alloc, room)?;
    cursor.expect(b";")?;
    Ok(ItemForm::Joined {
        channel: Channel::Fifo1(held),
        first,
        second,
    })
}

fn literals(cursor: &mut Cursor, alloc: Global, room: usize) -> Result<List<Literal>, Halt>
    ensures { Gives result cursor.new (read (reads circuit_rules room) literals_form cursor.old) }
{
    let mut literals = List::new(alloc);
    let first = literal(cursor, alloc, room)?;
    literals.push(first)?;
    'literals: while cursor.is(b",") {
        cursor.expect(b",")?;
        let next = literal(cursor, alloc, room)?;
        literals.push(next)?;
    }
    Ok(literals)
}

/// The items that a buffer holds at first, with rules nested at most `room` deep.
pub fn held_list(cursor: &mut Cursor, alloc: Global, room: usize) -> Result<List<Literal>, Halt>
    ensures { Gives result cursor.new (read (reads circuit_rules room) held_list_form cursor.old) }
{
    if cursor.is(b"with") {
        cursor.expect(b"with")?;
        literals(cursor, alloc, room)
    } else {
        Ok(List::new(alloc))
    }
}

/// A buffer with a size and what it holds at first, with rules nested at most `room` deep.
pub fn fifo(cursor: &mut Cursor, alloc: Global, room: usize) -> Result<ItemForm, Halt>
    ensures { Gives result cursor.new (read (reads circuit_rules room) fifo_form cursor.old) }
{
    cursor.expect(b"fifo")?;
    let size = cursor.number(1, MOST_PLACES)?;
    let first = cursor.name(alloc)?;
    let second = cursor.name(alloc)?;
    let held = held_list(cursor, alloc, room)?;
    cursor.expect(b";")?;
    Ok(ItemForm::Joined {
        channel: Channel::Fifo(size as u16, held),
        first,
        second,
    })
}

/// A filter with its test, with rules nested at most `room` deep.
pub fn filter(cursor: &mut Cursor, alloc: Global, room: usize) -> Result<ItemForm, Halt>
    ensures { Gives result cursor.new (read (reads circuit_rules room) filter_form cursor.old) }
{
    cursor.expect(b"filter")?;
    let (first, second) = names_before(cursor, alloc, b"when")?;
    let test = term_before(cursor, alloc, room, b";")?;
    Ok(ItemForm::Joined {
        channel: Channel::Filter(test),
        first,
        second,
    })
}

/// A map with its value, with rules nested at most `room` deep.
pub fn map(cursor: &mut Cursor, alloc: Global, room: usize) -> Result<ItemForm, Halt>
    ensures { Gives result cursor.new (read (reads circuit_rules room) map_form cursor.old) }
{
    cursor.expect(b"map")?;
    let (first, second) = names_before(cursor, alloc, b"to")?;
    let value = term_before(cursor, alloc, room, b";")?;
    Ok(ItemForm::Joined {
        channel: Channel::Map(value),
        first,
        second,
    })
}
