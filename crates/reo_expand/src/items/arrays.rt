//! The nodes of arrays.
ghost use Rattle.std.specs.Prelude.{◌≡◌, ◌≤◌, ◌++◌, pos, IfOk, OnOk, map, length};
ghost use Rattle.std.specs.List.{range_with_len};
ghost use Rattle.reo_trees.specs.declared.items.ItemForm.TheVariants as forms;
ghost use Rattle.reo_expand.specs.base.Expansion.{placed_name as placed, node_names, on_line};
ghost use Rattle.reo_expand.specs.base.Steps.{index_steps, size_count};
ghost use Rattle.reo_expand.specs.base.Judged.{Judges};

use crate::base::{Bound, ExpandFault};
use crate::items::copying::copied_type;
use crate::parts::{Room, number_within, placed_name};
use reo_trees::{Index, Item, ItemForm, TypeTerm};
use reo_values::{Bytes, List, NoMemory};
use std::alloc::Global;

/// `name.0` and so on, so many. `NoMemory` means out of memory, or of room.
fn array_names(
    alloc: Global,
    room: &mut Room,
    name: &[u8],
    size: u16,
) -> Result<List<Bytes>, NoMemory>
    ensures { IfOk result (λ ns. ns ≡ map (λ j. placed name.now (pos j)) (range_with_len 0 size)) }
{
    let mut names = List::new(alloc);
    for place in 0..size {
        room.take_name(name)?;
        let next = placed_name(alloc, name, place as i64)?;
        names.push(next)?;
    }
    Ok(names)
}

/// The names of the nodes of an array, at most 4,096, or of the one node. `Unbound` with the first
/// name of the size that has no value, `Index` where the size is not in 1 to 4,096; `NoMemory`
/// means out of memory, or of room.
pub(crate) fn names_of(
    alloc: Global,
    room: &mut Room,
    bound: &[Bound],
    line: u32,
    name: &Bytes,
    size: &Option<Index>,
) -> Result<List<Bytes>, ExpandFault>
    ensures judged { Judges (index_steps bound.now line 1 size.now)
        (λ ns. (ns ≡ node_names bound.now name.now size.now)
        × (length ns ≡ size_count bound.now size.now)) result }
    ensures few { IfOk result (λ ns. length ns ≤ 4096) }
{
    match size {
        None => {
            let mut names = List::new(alloc);
            let name = name.copy(alloc)?;
            names.push(name)?;
            Ok(names)
        }
        Some(size) => {
            let size = number_within(alloc, room, bound, line, 1, size)?;
            let names = array_names(alloc, room, name.as_slice(), size)?;
            Ok(names)
        }
    }
}

/// Adds a node of each name. `NoMemory` means out of memory, or of room.
pub(crate) fn put_nodes(
    alloc: Global,
    room: &mut Room,
    line: u32,
    names: &[Bytes],
    term: &TypeTerm,
    out: &mut List<Item>,
) -> Result<(), NoMemory>
    ensures { OnOk result (out.new
        ≡ out.old ++ map (λ n. on_line line (forms.Node n term.now)) names.now) }
{
    for name in names {
        let name = name.copy(alloc)?;
        let term = copied_type(alloc, room, term)?;
        out.push(Item {
            line,
            form: ItemForm::Node { name, term },
        })?;
    }
    Ok(())
}
