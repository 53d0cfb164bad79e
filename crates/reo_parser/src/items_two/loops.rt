//! Reading loops and what may stand in them.
ghost use Rattle.std.specs.Prelude.{◌≡◌, ℕ, List};
ghost use Rattle.reo_grammar.specs.Grammar.{read, reads};
ghost use Rattle.reo_cursor.specs.Reading.{Gives};
ghost use Rattle.reo_trees.specs.Forms.Rule.{looped_rule};
ghost use Rattle.reo_trees.specs.ItemsTwo.{looped_items as looped_list, loop_form, some_looped as looped_forms};
ghost use Rattle.reo_trees.specs.Rules.{circuit_rules};

use crate::is_plain;
use crate::items_two::channels::{fifo, fifo1, filter, map, plain};
use crate::items_two::indexes::index_before;
use crate::items_two::stateful::{quota, shift, variable};
use crate::items_two::uses::used;
use reo_cursor::{Cursor, Halt};
use reo_terms::name_before;
use reo_trees::{FormTwo, ItemTwo};
use reo_values::List;
use std::alloc::Global;

/// The items of a loop, up to a `}` or the end.
#[cycle(looped)]
fn looped_items(cursor: &mut Cursor, alloc: Global, room: usize) -> Result<List<ItemTwo>, Halt>
    ensures { Gives result cursor.new (read (reads circuit_rules room) looped_list cursor.old) }
{
    let mut items = List::new(alloc);
    'items: while cursor.is_other(b"}") {
        let next = looped(cursor, alloc, room)?;
        items.push(next)?;
    }
    Ok(items)
}

#[cycle(looped)]
fn looping(cursor: &mut Cursor, alloc: Global, room: usize) -> Result<FormTwo, Halt>
    ensures { Gives result cursor.new (read (reads circuit_rules room) loop_form cursor.old) }
{
    cursor.expect_named(b"for")?;
    let variable = name_before(cursor, alloc, b"=")?;
    let low = index_before(cursor, alloc, b"to")?;
    let high = index_before(cursor, alloc, b"{")?;
    let items = looped_items(cursor, alloc, room)?;
    cursor.expect(b"}")?;
    Ok(FormTwo::Loop {
        variable,
        low,
        high,
        items,
    })
}

/// An item that may stand in a loop, with rules nested at most `room` deep.
#[cycle(looped)]
pub(crate) fn some_looped(cursor: &mut Cursor, alloc: Global, room: usize) -> Result<FormTwo, Halt>
    ensures { Gives result cursor.new (read (reads circuit_rules room) looped_forms cursor.old) }
{
    if is_plain(cursor) {
        plain(cursor, alloc)
    } else if cursor.is(b"fifo1") {
        fifo1(cursor, alloc, room)
    } else if cursor.is(b"fifo") {
        fifo(cursor, alloc, room)
    } else if cursor.is(b"filter") {
        filter(cursor, alloc, room)
    } else if cursor.is(b"map") {
        map(cursor, alloc, room)
    } else if cursor.is(b"use") {
        used(cursor, alloc)
    } else if cursor.is_named(b"shift") {
        shift(cursor, alloc, room)
    } else if cursor.is_named(b"variable") {
        variable(cursor, alloc, room)
    } else if cursor.is_named(b"quota") {
        quota(cursor, alloc)
    } else {
        looping(cursor, alloc, room)
    }
}

/// An item of a loop, with rules nested at most `room` deep.
#[cycle(looped)]
fn looped(cursor: &mut Cursor, alloc: Global, room: usize) -> Result<ItemTwo, Halt>
    ensures { Gives result cursor.new (reads circuit_rules room looped_rule cursor.old) }
{
    if room == 0 {
        return Err(Halt::Room);
    }
    let line = cursor.line();
    let form = some_looped(cursor, alloc, room - 1)?;
    Ok(ItemTwo { line, form })
}
