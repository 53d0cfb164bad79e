//! The text of items, and of loops with an indent before each of their lines.
ghost use Rattle.std.specs.Prelude.{◌≡◌, ◌++◌, codes, OnOk, IfOk};
ghost use Rattle.reo_syntax.specs.Spread.{spread};
ghost use Rattle.reo_syntax.specs.two.IndexText.{ref_text, index_text};
ghost use Rattle.reo_syntax.specs.two.ItemText.{size_text, number_text, node_text, joined_text, used_text, head_text, form_text, lines_text};

use crate::two::indexes::{append_index, append_ref, append_refs};
use crate::{append_head, append_tail, append_type};
use reo_trees::{Channel, FormTwo, Index, ItemTwo, Ref, TypeTerm};
use reo_values::{Bytes, NoMemory};
use std::alloc::Global;

fn append_size(alloc: Global, out: &mut Bytes, size: &Option<Index>) -> Result<(), NoMemory>
    ensures { OnOk result (out.new ≡ out.old ++ size_text size.now) }
{
    match size {
        None => Ok(()),
        Some(size) => {
            out.append(b".(")?;
            append_index(alloc, out, size)?;
            out.append(b")")
        }
    }
}

fn append_number_of(alloc: Global, out: &mut Bytes, number: &Option<Index>) -> Result<(), NoMemory>
    ensures { OnOk result (out.new ≡ out.old ++ number_text number.now) }
{
    match number {
        None => Ok(()),
        Some(number) => {
            out.append(b"<")?;
            append_index(alloc, out, number)?;
            out.append(b">")
        }
    }
}

fn append_node(
    alloc: Global,
    out: &mut Bytes,
    name: &Bytes,
    size: &Option<Index>,
    term: &TypeTerm,
) -> Result<(), NoMemory>
    ensures { OnOk result (out.new ≡ out.old ++ node_text name.now size.now term.now) }
{
    out.append(b"node ")?;
    out.append(name.as_slice())?;
    append_size(alloc, out, size)?;
    out.append(b": ")?;
    append_type(alloc, out, term)?;
    out.append(b";")
}

fn append_joined(
    alloc: Global,
    out: &mut Bytes,
    channel: &Channel,
    first: &Ref,
    second: &Ref,
) -> Result<(), NoMemory>
    ensures { OnOk result (out.new ≡ out.old ++ joined_text channel.now first.now second.now) }
{
    append_head(alloc, out, channel)?;
    append_ref(alloc, out, first)?;
    out.append(b" ")?;
    append_ref(alloc, out, second)?;
    append_tail(alloc, out, channel)?;
    out.append(b";")
}

fn append_used(
    alloc: Global,
    out: &mut Bytes,
    name: &Bytes,
    number: &Option<Index>,
    arguments: &[Ref],
) -> Result<(), NoMemory>
    ensures { OnOk result (out.new ≡ out.old ++ used_text name.now number.now arguments.now) }
{
    out.append(b"use ")?;
    out.append(name.as_slice())?;
    append_number_of(alloc, out, number)?;
    out.append(b"(")?;
    append_refs(alloc, out, arguments)?;
    out.append(b");")
}

/// Adds a loop's first line.
fn append_loop_head(
    alloc: Global,
    out: &mut Bytes,
    variable: &Bytes,
    low: &Index,
    high: &Index,
) -> Result<(), NoMemory>
    ensures { OnOk result (out.new ≡ out.old ++ head_text variable.now low.now high.now) }
{
    out.append(b"for ")?;
    out.append(variable.as_slice())?;
    out.append(b" = ")?;
    append_index(alloc, out, low)?;
    out.append(b" to ")?;
    append_index(alloc, out, high)?;
    out.append(b" {\n")
}

/// An indent with two spaces more.
fn deeper(alloc: Global, indent: &[u8]) -> Result<Bytes, NoMemory>
    ensures { IfOk result (λ b. b ≡ indent.now ++ codes "  ") }
{
    let mut inner = Bytes::from_slice(alloc, indent)?;
    inner.append(b"  ")?;
    Ok(inner)
}

#[cycle(lines)]
fn append_form(
    alloc: Global,
    out: &mut Bytes,
    indent: &[u8],
    form: &FormTwo,
) -> Result<(), NoMemory>
    ensures { OnOk result (out.new ≡ out.old ++ form_text indent.now form.now) }
{
    match form {
        FormTwo::Node { name, size, term } => append_node(alloc, out, name, size, term),
        FormTwo::Joined {
            channel,
            first,
            second,
        } => append_joined(alloc, out, channel, first, second),
        FormTwo::Used {
            name,
            number,
            arguments,
        } => append_used(alloc, out, name, number, arguments.as_slice()),
        FormTwo::Loop {
            variable,
            low,
            high,
            items,
        } => {
            append_loop_head(alloc, out, variable, low, high)?;
            let inner = deeper(alloc, indent)?;
            append_items(alloc, out, inner.as_slice(), items.as_slice())?;
            out.append(indent)?;
            out.append(b"}")
        }
    }
}

/// Adds a line for each item with this indent before it, and for a loop the lines of its items
/// with an indent of two spaces more, and its `}`. `NoMemory` means out of memory.
#[cycle(lines)]
pub(crate) fn append_items(
    alloc: Global,
    out: &mut Bytes,
    indent: &[u8],
    items: &[ItemTwo],
) -> Result<(), NoMemory>
    ensures { OnOk result (out.new ≡ out.old ++ lines_text indent.now items.now) }
{
    for item in items {
        out.append(indent)?;
        append_form(alloc, out, indent, &item.form)?;
        out.append(b"\n")?;
    }
    Ok(())
}
