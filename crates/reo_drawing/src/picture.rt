//! The picture of a circuit.
ghost use Rattle.std.specs.Prelude.{◌≡◌, ◌++◌, IfOk, OnOk, slice_get, slice_index_or, false, option_copied};
ghost use Rattle.reo_drawing.specs.Pictures.{node_line, node_lines, name_of, primitive_lines, item_at, joint_lines, head_text, picture_text};

use crate::joint::{DrawnJoint, append_joint};
use crate::label_texts::append_label;
use crate::marks::JointMarks;
use crate::strand::strand_of;
use crate::vertex::append_vertex;
use reo_kinds::Kind;
use reo_net_base::{Joint, Port};
use reo_values::{Bytes, List, NoMemory, Value, append_decimal};
use std::alloc::Global;

/// What is shown of a round beside the circuit: nothing where the lists are empty.
#[derive(Drop)]
pub struct Scene {
    /// What stands above the picture.
    pub title: Bytes,
    /// The marks of each joint.
    pub marks: List<JointMarks>,
    /// Whether each primitive loses an item.
    pub lost: List<bool>,
}

/// Adds the line of a node: its name round all that stands at it.
#[tactic(auto, unfolding(crate::specs::Pictures::node_line))]
fn append_node(alloc: Global, text: &mut Bytes, number: usize, name: &[u8]) -> Result<(), NoMemory>
    ensures { OnOk result (text.new ≡ text.old ++ node_line number name.now) }
{
    text.append(b"  subgraph cluster_")?;
    append_decimal(alloc, text, number as u128)?;
    text.append(b" { label=")?;
    append_label(alloc, text, name)?;
    text.append(b"; }\n")
}

/// Adds a line for each node.
fn append_nodes(alloc: Global, text: &mut Bytes, names: &[Bytes]) -> Result<(), NoMemory>
    ensures { OnOk result (text.new ≡ text.old ++ node_lines names.now) }
{
    for (number, name) in names.iter().enumerate() {
        append_node(alloc, text, number, name.as_slice())?;
    }
    Ok(())
}

/// The name of a port, and none for what is no port.
fn name_of(ports: &[Port], number: usize) -> &[u8]
    ensures { result.now ≡ name_of ports.now number }
{
    match ports.get(number) {
        Some(port) => port.name.as_slice(),
        None => b"",
    }
}

/// Whether an item is lost at a place.
fn is_lost(lost: &[bool], number: usize) -> bool
    ensures { result ≡ slice_index_or lost.now number false }
{
    match lost.get(number) {
        Some(lost) => *lost,
        None => false,
    }
}

/// Adds a line for each primitive.
fn append_primitives(
    alloc: Global,
    text: &mut Bytes,
    kinds: &[Kind],
    ports: &[Port],
    lost: &[bool],
) -> Result<(), NoMemory>
    ensures { OnOk result
        (text.new ≡ text.old ++ primitive_lines ports.now lost.now kinds.now) }
{
    for (number, kind) in kinds.iter().enumerate() {
        let name = name_of(ports, number);
        append_vertex(alloc, text, number, name, kind, is_lost(lost, number))?;
    }
    Ok(())
}

/// The item at a place, where one is.
fn item_at(items: &[Option<Value>], number: usize) -> Option<&Value>
    ensures { option_copied result ≡ item_at items.now number }
{
    match items.get(number) {
        Some(Some(item)) => Some(item),
        _ => None,
    }
}

/// The number at a place, or 0.
fn home_at(homes: &[u32], number: usize) -> usize
    ensures { result ≡ slice_index_or homes.now number 0 }
{
    match homes.get(number) {
        Some(home) => *home as usize,
        None => 0,
    }
}

/// The primitive at a place.
fn kind_at(kinds: &[Kind], number: usize) -> Option<&Kind>
    ensures { option_copied result ≡ slice_get kinds.now number }
{
    kinds.get(number)
}

/// The marks at a place, where they are shown.
fn marks_at(marks: &[JointMarks], number: usize) -> Option<JointMarks>
    ensures { result ≡ slice_get marks.now number }
{
    marks.get(number).copied()
}

/// Adds a line for each joint.
fn append_joints(
    alloc: Global,
    text: &mut Bytes,
    kinds: &[Kind],
    joints: &[Joint],
    homes: &[u32],
    marks: &[JointMarks],
    items: &[Option<Value>],
) -> Result<(), NoMemory>
    ensures { OnOk result (text.new
        ≡ text.old ++ joint_lines kinds.now homes.now marks.now items.now joints.now) }
{
    for (number, joint) in joints.iter().enumerate() {
        let spot = DrawnJoint {
            number,
            home: home_at(homes, number),
            joint: *joint,
            giver: strand_of(kind_at(kinds, joint.giver.primitive)),
            taker: strand_of(kind_at(kinds, joint.taker.primitive)),
            marks: marks_at(marks, number),
        };
        append_joint(alloc, text, spot, item_at(items, number))?;
    }
    Ok(())
}

/// Adds what stands before the lines.
#[tactic(auto, unfolding(crate::specs::Pictures::head_text))]
fn append_head(alloc: Global, text: &mut Bytes, title: &[u8]) -> Result<(), NoMemory>
    ensures { OnOk result (text.new ≡ text.old ++ head_text title.now) }
{
    text.append(b"digraph circuit {\n  graph [rankdir=LR nodesep=0.15 ranksep=0.2")?;
    text.append(b" style=rounded color=gray60 fontname=Helvetica fontsize=10 label=")?;
    append_label(alloc, text, title)?;
    text.append(b"];\n  node [fontname=Helvetica fontsize=10 height=0.3")?;
    text.append(b" margin=\"0.08,0.04\"];\n  edge [dir=both arrowtail=none arrowsize=0.7];\n")
}

/// The picture of a circuit, as a text that Graphviz draws: a line for each node, each primitive
/// and each joint, under their flat names. A joint has the node that stands at its place in
/// `homes`; of a scene the marks of the joints are shown, and what is lost; and the items that
/// flow. `NoMemory` is out of memory.
pub fn picture_text(
    alloc: Global,
    kinds: &[Kind],
    joints: &[Joint],
    ports: &[Port],
    homes: &[u32],
    names: &[Bytes],
    scene: &Scene,
    items: &[Option<Value>],
) -> Result<Bytes, NoMemory>
    ensures { IfOk result (λ text. text ≡ picture_text kinds.now joints.now ports.now homes.now
        names.now scene.now items.now) }
{
    let mut text = Bytes::new(alloc);
    let marks = scene.marks.as_slice();
    append_head(alloc, &mut text, scene.title.as_slice())?;
    append_nodes(alloc, &mut text, names)?;
    append_primitives(alloc, &mut text, kinds, ports, scene.lost.as_slice())?;
    append_joints(alloc, &mut text, kinds, joints, homes, marks, items)?;
    text.append(b"}\n")?;
    Ok(text)
}
