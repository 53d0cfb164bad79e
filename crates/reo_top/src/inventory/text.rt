//! The text of a circuit's parts.
ghost use Rattle.std.specs.Prelude.{◌≡◌, ◌++◌, [], IfOk, OnOk, length, slice_index_or};
ghost use Rattle.std.specs.Fmt.{decimal};
ghost use Rattle.reo_top.specs.inventory.Ends.{AreHomes};
ghost use Rattle.reo_top.specs.inventory.Kinds.{number_text, nodes_text};
ghost use Rattle.reo_top.specs.inventory.Parts.{line_of, count_line, parts_text};

use crate::inventory::ends::homes_of_ends;
use crate::inventory::kind::{has_two, number_of, word_of};
use reo_kinds::Kind;
use reo_net_circuit::Circuit;
use reo_values::{Bytes, NoMemory, append_decimal};
use std::alloc::Global;

/// Adds the number behind a word, where there is one.
fn append_some(alloc: Global, text: &mut Bytes, number: Option<usize>) -> Result<(), NoMemory>
    ensures { OnOk result (text.new ≡ text.old ++ number_text number) }
{
    let Some(number) = number else {
        return Ok(());
    };
    append_decimal(alloc, text, number as u128)?;
    text.append(b" ")
}

/// Adds one node, or two.
fn append_nodes(text: &mut Bytes, two: bool, first: &[u8], second: &[u8]) -> Result<(), NoMemory>
    ensures { OnOk result (text.new ≡ text.old ++ nodes_text two first.now second.now) }
{
    text.append(first)?;
    if !two {
        return Ok(());
    }
    text.append(b" ")?;
    text.append(second)
}

/// Adds the line of a primitive, by its number and the nodes of its first two ends.
#[tactic(auto, unfolding(crate::specs::inventory::Parts::line_of))]
fn append_line(
    alloc: Global,
    text: &mut Bytes,
    number: usize,
    kind: &Kind,
    first: &[u8],
    second: &[u8],
) -> Result<(), NoMemory>
    ensures { OnOk result (text.new ≡ text.old ++ line_of number kind.now first.now second.now) }
{
    append_decimal(alloc, text, number as u128)?;
    text.append(b" ")?;
    text.append(word_of(kind))?;
    text.append(b" ")?;
    append_some(alloc, text, number_of(kind))?;
    append_nodes(text, has_two(kind), first, second)?;
    text.append(b"\n")
}

/// Adds how many parts there are.
#[tactic(auto, unfolding(crate::specs::inventory::Parts::count_line))]
fn append_counts(
    alloc: Global,
    text: &mut Bytes,
    primitives: usize,
    joints: usize,
) -> Result<(), NoMemory>
    ensures { OnOk result (text.new ≡ text.old ++ count_line primitives joints) }
{
    text.append(b"accepted: ")?;
    append_decimal(alloc, text, primitives as u128)?;
    text.append(b" primitives, ")?;
    append_decimal(alloc, text, joints as u128)?;
    text.append(b" joints\n")
}

/// One of the names, or none.
fn name_at(names: &[Bytes], place: u32) -> &[u8]
    ensures { result.now ≡ slice_index_or names.now place [] }
{
    match names.get(place as usize) {
        Some(name) => name.as_slice(),
        None => b"",
    }
}

/// The text of a circuit's parts: for each primitive a line with its number, what it is, and the
/// names of its nodes, and then how many primitives and joints there are. The node of an end is
/// that of the joint at it. `NoMemory` is out of memory.
pub fn parts_text(
    alloc: Global,
    circuit: &Circuit<Kind>,
    homes: &[u32],
    names: &[Bytes],
) -> Result<Bytes, NoMemory>
    requires { length homes.now ≡ length circuit.now.joints }
    ensures { IfOk result
        (λ text. text ≡ parts_text circuit.now.primitives circuit.now.joints homes.now names.now) }
{
    let primitives = circuit.primitives();
    let joints = circuit.joints();
    let first = homes_of_ends(alloc, joints, homes, primitives.len(), 0)?;
    let second = homes_of_ends(alloc, joints, homes, primitives.len(), 1)?;
    let mut text = Bytes::new(alloc);
    for (number, kind) in primitives.iter().enumerate() {
        let a = name_at(names, *first.at(number));
        let b = name_at(names, *second.at(number));
        append_line(alloc, &mut text, number, kind, a, b)?;
    }
    append_counts(alloc, &mut text, primitives.len(), joints.len())?;
    Ok(text)
}
