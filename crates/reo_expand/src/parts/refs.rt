//! The names that items have for nodes and connectors.
ghost use Rattle.std.specs.Prelude.{◌≡◌, ◌≤◌, pos, Some, IfOk, map};
ghost use Rattle.std.specs.List.{flat_map};
ghost use Rattle.reo_expand.specs.base.Indexed.{value_of};
ghost use Rattle.reo_expand.specs.base.Expansion.{ref_name, used_name as used};
ghost use Rattle.reo_expand.specs.base.Steps.{ref_steps, index_steps};
ghost use Rattle.reo_expand.specs.base.Judged.{Judges};

use crate::base::{Bound, ExpandFault};
use crate::parts::{Room, index_value, numbered_name, placed_name};
use reo_trees::{Index, Ref};
use reo_values::{Bytes, List};
use std::alloc::Global;

/// The greatest size of an array, and the greatest number of a use.
const MOST_NUMBER: i64 = 4_096;

/// The name of the node that an item names. `Unbound` with the first name of its place that has no
/// value; `NoMemory` means out of memory.
pub fn node_name(
    alloc: Global,
    room: &mut Room,
    bound: &[Bound],
    line: u32,
    node: &Ref,
) -> Result<Bytes, ExpandFault>
    ensures { Judges (ref_steps bound.now line node.now) (λ b. b ≡ ref_name bound.now node.now)
        result }
{
    room.take_name(node.name.as_slice())?;
    match &node.place {
        None => {
            let name = node.name.copy(alloc)?;
            Ok(name)
        }
        Some(place) => {
            let place = index_value(alloc, room, bound, line, place)?;
            let name = placed_name(alloc, node.name.as_slice(), place)?;
            Ok(name)
        }
    }
}

/// The names of nodes, in order. `Unbound` with the first name of their places that has no value;
/// `NoMemory` means out of memory.
pub fn node_names(
    alloc: Global,
    room: &mut Room,
    bound: &[Bound],
    line: u32,
    nodes: &[Ref],
) -> Result<List<Bytes>, ExpandFault>
    ensures { Judges (flat_map (ref_steps bound.now line) nodes.now)
        (λ bs. bs ≡ map (ref_name bound.now) nodes.now) result }
{
    let mut names = List::new(alloc);
    for node in nodes {
        let name = node_name(alloc, room, bound, line, node)?;
        names.push(name)?;
    }
    Ok(names)
}

/// The value of an index from `least` to 4,096. `Unbound` with its first name that has no value,
/// `Index` where the value lies outside; `NoMemory` means out of memory.
pub fn number_within(
    alloc: Global,
    room: &mut Room,
    bound: &[Bound],
    line: u32,
    least: u16,
    index: &Index,
) -> Result<u16, ExpandFault>
    ensures judged { Judges (index_steps bound.now line least (Some index.now))
        (λ n. value_of bound.now index.now ≡ pos n) result }
    ensures few { IfOk result (λ n. n ≤ 4096) }
{
    let value = index_value(alloc, room, bound, line, index)?;
    if value < least as i64 || MOST_NUMBER < value {
        return Err(ExpandFault::Index { line });
    }
    Ok(value as u16)
}

/// The name of the connector that an item uses. `Unbound` with the first name of its number that
/// has no value, `Index` where the number is not in 0 to 4,096; `NoMemory` means out of memory.
pub fn used_name(
    alloc: Global,
    room: &mut Room,
    bound: &[Bound],
    line: u32,
    name: &Bytes,
    number: &Option<Index>,
) -> Result<Bytes, ExpandFault>
    ensures { Judges (index_steps bound.now line 0 number.now)
        (λ b. b ≡ used bound.now name.now number.now) result }
{
    room.take_name(name.as_slice())?;
    match number {
        None => {
            let name = name.copy(alloc)?;
            Ok(name)
        }
        Some(number) => {
            let number = number_within(alloc, room, bound, line, 0, number)?;
            let name = numbered_name(alloc, name.as_slice(), number as i64)?;
            Ok(name)
        }
    }
}
