//! The text of indexes, and of names of nodes with a place.
ghost use Rattle.std.specs.Prelude.{◌≡◌, ◌++◌, OnOk};
ghost use Rattle.reo_syntax.specs.Spread.{spread};
ghost use Rattle.reo_syntax.specs.two.IndexText.{unit_text, sign_text, sign_at, units_text, index_text, place_text, placed_text, ref_text};

use crate::append_comma;
use reo_trees::{Index, IndexUnit, Ref, SignedUnit};
use reo_values::{Bytes, NoMemory, append_number};
use std::alloc::Global;

fn append_unit(alloc: Global, out: &mut Bytes, unit: &IndexUnit) -> Result<(), NoMemory>
    ensures { OnOk result (out.new ≡ out.old ++ unit_text unit.now) }
{
    match unit {
        IndexUnit::Number(number) => append_number(alloc, out, i64::from(*number)),
        IndexUnit::Name(name) => out.append(name.as_slice()),
    }
}

fn append_sign(out: &mut Bytes, minus: bool) -> Result<(), NoMemory>
    ensures { OnOk result (out.new ≡ out.old ++ sign_text minus) }
{
    if minus {
        out.append(b" - ")
    } else {
        out.append(b" + ")
    }
}

/// Adds what stands before the unit at a place: nothing before the first.
fn append_sign_at(out: &mut Bytes, place: usize, minus: bool) -> Result<(), NoMemory>
    ensures { OnOk result (out.new ≡ out.old ++ sign_at place minus) }
{
    if place == 0 {
        Ok(())
    } else {
        append_sign(out, minus)
    }
}

fn append_units(alloc: Global, out: &mut Bytes, units: &[SignedUnit]) -> Result<(), NoMemory>
    ensures { OnOk result (out.new ≡ out.old ++ units_text units.now) }
{
    for (place, unit) in units.iter().enumerate() {
        append_sign_at(out, place, unit.minus)?;
        append_unit(alloc, out, &unit.unit)?;
    }
    Ok(())
}

/// Adds an index. `NoMemory` means out of memory.
pub(crate) fn append_index(alloc: Global, out: &mut Bytes, index: &Index) -> Result<(), NoMemory>
    ensures { OnOk result (out.new ≡ out.old ++ index_text index.now) }
{
    append_units(alloc, out, index.units.as_slice())
}

/// Adds the units of a place, in parentheses where they are not one alone.
fn append_place(alloc: Global, out: &mut Bytes, units: &[SignedUnit]) -> Result<(), NoMemory>
    ensures { OnOk result (out.new ≡ out.old ++ place_text units.now) }
{
    if let [unit] = units {
        return append_unit(alloc, out, &unit.unit);
    }
    out.append(b"(")?;
    append_units(alloc, out, units)?;
    out.append(b")")
}

fn append_placed(alloc: Global, out: &mut Bytes, place: &Option<Index>) -> Result<(), NoMemory>
    ensures { OnOk result (out.new ≡ out.old ++ placed_text place.now) }
{
    match place {
        None => Ok(()),
        Some(place) => {
            out.append(b".")?;
            append_place(alloc, out, place.units.as_slice())
        }
    }
}

/// Adds the name of a node, with its place if it has one. `NoMemory` means out of memory.
pub(crate) fn append_ref(alloc: Global, out: &mut Bytes, node: &Ref) -> Result<(), NoMemory>
    ensures { OnOk result (out.new ≡ out.old ++ ref_text node.now) }
{
    out.append(node.name.as_slice())?;
    append_placed(alloc, out, &node.place)
}

/// Adds names of nodes with `, ` between them. `NoMemory` means out of memory.
pub(crate) fn append_refs(alloc: Global, out: &mut Bytes, nodes: &[Ref]) -> Result<(), NoMemory>
    ensures { OnOk result (out.new ≡ out.old ++ spread ref_text nodes.now) }
{
    for (place, node) in nodes.iter().enumerate() {
        append_comma(out, place)?;
        append_ref(alloc, out, node)?;
    }
    Ok(())
}
