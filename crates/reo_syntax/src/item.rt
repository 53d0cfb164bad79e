//! The text of items.
ghost use Rattle.std.specs.Prelude.{◌≡◌, ◌++◌, OnOk, codes};
ghost use Rattle.std.specs.Fmt.{decimal};
ghost use Rattle.reo_syntax.specs.ItemText.{channel_head, channel_tail, held_text, form_of_item_text, item_text};

use crate::literal::{append_literal, append_literals};
use crate::spread::append_names;
use crate::term::append_term;
use crate::type_term::append_type;
use reo_trees::{Channel, Item, ItemForm, Literal};
use reo_values::{Bytes, NoMemory, append_number};
use std::alloc::Global;

// Adds a word and a number, each with a space behind it.
fn append_counted(alloc: Global, out: &mut Bytes, word: &[u8], number: u32) -> Result<(), NoMemory>
    ensures { OnOk result (out.new ≡ out.old ++ (word.now ++ (decimal number ++ codes " "))) }
{
    out.append(word)?;
    append_number(alloc, out, i64::from(number))?;
    out.append(b" ")
}

/// Adds what a channel begins with, before its nodes. `NoMemory` means out of memory.
pub fn append_head(alloc: Global, out: &mut Bytes, channel: &Channel) -> Result<(), NoMemory>
    ensures { OnOk result (out.new ≡ out.old ++ channel_head channel.now) }
{
    match channel {
        Channel::Sync => out.append(b"sync "),
        Channel::Lossy => out.append(b"lossy "),
        Channel::SyncDrain => out.append(b"syncdrain "),
        Channel::AsyncDrain => out.append(b"asyncdrain "),
        Channel::Fifo1(_) => out.append(b"fifo1 "),
        Channel::Fifo(size, _) => append_counted(alloc, out, b"fifo ", u32::from(*size)),
        Channel::Filter(_) => out.append(b"filter "),
        Channel::Map(_) => out.append(b"map "),
        Channel::Shift(size, _) => append_counted(alloc, out, b"shift ", u32::from(*size)),
        Channel::Variable(_) => out.append(b"variable "),
        Channel::Quota(number) => append_counted(alloc, out, b"quota ", *number),
    }
}

fn append_held(alloc: Global, out: &mut Bytes, held: &[Literal]) -> Result<(), NoMemory>
    ensures { OnOk result (out.new ≡ out.old ++ held_text held.now) }
{
    if held.is_empty() {
        return Ok(());
    }
    out.append(b" with ")?;
    append_literals(alloc, out, held)
}

/// Adds what stands behind a channel's nodes. `NoMemory` means out of memory.
pub fn append_tail(alloc: Global, out: &mut Bytes, channel: &Channel) -> Result<(), NoMemory>
    ensures { OnOk result (out.new ≡ out.old ++ channel_tail channel.now) }
{
    match channel {
        Channel::Fifo1(Some(literal)) | Channel::Variable(Some(literal)) => {
            out.append(b" with ")?;
            append_literal(alloc, out, literal)
        }
        Channel::Fifo(_, held) | Channel::Shift(_, held) => {
            append_held(alloc, out, held.as_slice())
        }
        Channel::Filter(term) => {
            out.append(b" when ")?;
            append_term(alloc, out, term)
        }
        Channel::Map(term) => {
            out.append(b" to ")?;
            append_term(alloc, out, term)
        }
        _ => Ok(()),
    }
}

/// Adds an item, with its `;`.
pub fn append_item(alloc: Global, out: &mut Bytes, item: &Item) -> Result<(), NoMemory>
    ensures { OnOk result (out.new ≡ out.old ++ item_text item.now) }
{
    match &item.form {
        ItemForm::Node { name, term } => {
            out.append(b"node ")?;
            out.append(name.as_slice())?;
            out.append(b": ")?;
            append_type(alloc, out, term)?;
            out.append(b";")
        }
        ItemForm::Joined {
            channel,
            first,
            second,
        } => {
            append_head(alloc, out, channel)?;
            out.append(first.as_slice())?;
            out.append(b" ")?;
            out.append(second.as_slice())?;
            append_tail(alloc, out, channel)?;
            out.append(b";")
        }
        ItemForm::Used { name, arguments } => {
            out.append(b"use ")?;
            out.append(name.as_slice())?;
            out.append(b"(")?;
            append_names(out, arguments.as_slice())?;
            out.append(b");")
        }
    }
}
