//! The line of a joint.
ghost use Rattle.std.specs.Prelude.{◌≡◌, ◌++◌, OnOk, [], option_copied};
ghost use Rattle.reo_drawing.specs.Joints.{giver_mark, taker_mark, arrow_text, mark_arrow, mark_width, attributes_text, link_text, member_text, giver_text, onward_text, backward_text, taker_text, item_point, still_point, marked_point, point_text, place_text, spot_text, sides_text, joint_line};
ghost use Rattle.reo_drawing.specs.Strands.{source_arrow};

use crate::label_texts::{append_item, append_label};
use crate::marks::JointMarks;
use crate::strand::Strand;
use reo_net_base::{End, Joint, Mark};
use reo_values::{Bytes, NoMemory, Value, append_decimal};
use std::alloc::Global;

/// The arrow of a mark at a joint: who gives a reason has an open one, and who jams a box.
fn mark_arrow(mark: Option<Mark>) -> &'static [u8]
    ensures { result.now ≡ mark_arrow mark }
{
    match mark {
        Some(Mark::G) => b"onormal",
        Some(Mark::J) => b"box",
        _ => b"",
    }
}

/// How wide the line of an end with a mark is: thick where an item flows, thin where none does.
fn mark_width(mark: Option<Mark>) -> &'static [u8]
    ensures { result.now ≡ mark_width mark }
{
    match mark {
        None => b"",
        Some(Mark::F) => b" penwidth=3",
        _ => b" penwidth=0.5",
    }
}

/// The mark of the giver, where marks are shown.
fn giver_mark(marks: Option<JointMarks>) -> Option<Mark>
    ensures { result ≡ giver_mark marks }
{
    match marks {
        Some(marks) => Some(marks.giver),
        None => None,
    }
}

/// That of the taker.
fn taker_mark(marks: Option<JointMarks>) -> Option<Mark>
    ensures { result ≡ taker_mark marks }
{
    match marks {
        Some(marks) => Some(marks.taker),
        None => None,
    }
}

/// Adds an arrow of two forms, or that there is none.
#[tactic(auto, unfolding(crate::specs::Joints::arrow_text))]
fn append_arrow(text: &mut Bytes, first: &[u8], second: &[u8]) -> Result<(), NoMemory>
    ensures { OnOk result (text.new ≡ text.old ++ arrow_text first.now second.now) }
{
    if first.is_empty() && second.is_empty() {
        return text.append(b"none");
    }
    text.append(first)?;
    text.append(second)
}

/// Adds how the line of an end is drawn.
#[tactic(auto, unfolding(crate::specs::Joints::attributes_text))]
fn append_attributes(text: &mut Bytes, strand: Strand, mark: Option<Mark>) -> Result<(), NoMemory>
    ensures { OnOk result (text.new ≡ text.old ++ attributes_text strand mark) }
{
    text.append(b" style=")?;
    text.append(strand.style())?;
    text.append(mark_width(mark))?;
    text.append(b"];")
}

/// Adds which two points a line joins.
#[tactic(auto, unfolding(crate::specs::Joints::link_text))]
fn append_link(
    alloc: Global,
    text: &mut Bytes,
    from: &[u8],
    first: usize,
    to: &[u8],
    second: usize,
) -> Result<(), NoMemory>
    ensures { OnOk result
        (text.new ≡ text.old ++ link_text from.now first to.now second) }
{
    text.append(from)?;
    append_decimal(alloc, text, first as u128)?;
    text.append(to)?;
    append_decimal(alloc, text, second as u128)
}

/// Adds the arrow of a mark and that of a strand at one point.
fn append_both(
    text: &mut Bytes,
    at: &[u8],
    mark: Option<Mark>,
    other: &[u8],
) -> Result<(), NoMemory>
    ensures { OnOk result
        (text.new ≡ text.old ++ (at.now ++ arrow_text (mark_arrow mark) other.now)) }
{
    let arrow = mark_arrow(mark);
    text.append(at)?;
    append_arrow(text, arrow, other)
}

/// Adds the arrow of a strand.
fn append_single(text: &mut Bytes, at: &[u8], strand: Strand) -> Result<(), NoMemory>
    ensures { OnOk result
        (text.new ≡ text.old ++ (at.now ++ arrow_text [] (source_arrow strand))) }
{
    let arrow = strand.source_arrow();
    text.append(at)?;
    append_arrow(text, b"", arrow)
}

/// Adds the line from the primitive that gives items to the joint.
#[tactic(auto, unfolding(crate::specs::Joints::giver_text))]
fn append_giver(
    alloc: Global,
    text: &mut Bytes,
    number: usize,
    primitive: usize,
    strand: Strand,
    mark: Option<Mark>,
) -> Result<(), NoMemory>
    ensures { OnOk result (text.new ≡ text.old ++ giver_text number primitive strand mark) }
{
    let arrow = strand.sink_arrow();
    append_link(alloc, text, b" p", primitive, b" -> j", number)?;
    append_both(text, b" [arrowhead=", mark, arrow)?;
    append_attributes(text, strand, mark)
}

/// Adds the line from the joint to the primitive that takes items.
#[tactic(auto, unfolding(crate::specs::Joints::onward_text))]
fn append_onward(
    alloc: Global,
    text: &mut Bytes,
    number: usize,
    primitive: usize,
    strand: Strand,
    mark: Option<Mark>,
) -> Result<(), NoMemory>
    ensures { OnOk result (text.new ≡ text.old ++ onward_text number primitive strand mark) }
{
    append_link(alloc, text, b" j", number, b" -> p", primitive)?;
    append_both(text, b" [arrowtail=", mark, b"")?;
    append_single(text, b" arrowhead=", strand)?;
    append_attributes(text, strand, mark)
}

/// Adds the same line as one from the primitive to the joint, which then lies behind it.
#[tactic(auto, unfolding(crate::specs::Joints::backward_text))]
fn append_backward(
    alloc: Global,
    text: &mut Bytes,
    number: usize,
    primitive: usize,
    strand: Strand,
    mark: Option<Mark>,
) -> Result<(), NoMemory>
    ensures { OnOk result (text.new ≡ text.old ++ backward_text number primitive strand mark) }
{
    append_link(alloc, text, b" p", primitive, b" -> j", number)?;
    append_both(text, b" [arrowhead=", mark, b"")?;
    append_single(text, b" arrowtail=", strand)?;
    append_attributes(text, strand, mark)
}

/// Adds the line between the joint and the primitive that takes items.
fn append_taker(
    alloc: Global,
    text: &mut Bytes,
    number: usize,
    end: End,
    strand: Strand,
    mark: Option<Mark>,
) -> Result<(), NoMemory>
    ensures { OnOk result (text.new ≡ text.old ++ taker_text number end strand mark) }
{
    if strand.is_back(end.end) {
        append_backward(alloc, text, number, end.primitive, strand, mark)
    } else {
        append_onward(alloc, text, number, end.primitive, strand, mark)
    }
}

/// Adds a point with the item that flows beside it.
#[tactic(auto, unfolding(crate::specs::Joints::item_point))]
fn append_item_point(alloc: Global, text: &mut Bytes, item: &Value) -> Result<(), NoMemory>
    ensures { OnOk result (text.new ≡ text.old ++ item_point item.now) }
{
    let mut words = Bytes::new(alloc);
    append_item(alloc, &mut words, item)?;
    text.append(b"xlabel=")?;
    append_label(alloc, text, words.as_slice())?;
    text.append(b" shape=point width=0.1")
}

/// The point of a joint at which nothing flows: a square where it jams, and else a circle.
fn still_point(mark: Mark) -> &'static [u8]
    ensures { result.now ≡ still_point mark }
{
    match mark {
        Mark::J => b"shape=square width=0.1 height=0.1 fixedsize=true label=\"\"",
        _ => b"shape=circle width=0.07 height=0.07 fixedsize=true label=\"\"",
    }
}

/// Adds the point of a joint whose marks are shown.
fn append_marked(
    alloc: Global,
    text: &mut Bytes,
    mark: Mark,
    item: Option<&Value>,
) -> Result<(), NoMemory>
    ensures { OnOk result (text.new ≡ text.old ++ marked_point mark (option_copied item.entry)) }
{
    match item {
        Some(item) => append_item_point(alloc, text, item),
        None => text.append(still_point(mark)),
    }
}

/// Adds the point of a joint.
fn append_point(
    alloc: Global,
    text: &mut Bytes,
    marks: Option<JointMarks>,
    item: Option<&Value>,
) -> Result<(), NoMemory>
    ensures { OnOk result (text.new ≡ text.old ++ point_text marks (option_copied item.entry)) }
{
    match marks {
        None => text.append(b"shape=point width=0.05"),
        Some(marks) => append_marked(alloc, text, marks.giver, item),
    }
}

/// Adds that a primitive stands at the node, where it does.
fn append_member(
    alloc: Global,
    text: &mut Bytes,
    primitive: usize,
    strand: Strand,
) -> Result<(), NoMemory>
    ensures { OnOk result (text.new ≡ text.old ++ member_text primitive strand) }
{
    if !strand.is_inside() {
        return Ok(());
    }
    text.append(b" p")?;
    append_decimal(alloc, text, primitive as u128)?;
    text.append(b";")
}

/// Adds the point of a joint in its node, with what stands at it there.
#[tactic(auto, unfolding(crate::specs::Joints::place_text))]
fn append_place(
    alloc: Global,
    text: &mut Bytes,
    number: usize,
    home: usize,
    marks: Option<JointMarks>,
    item: Option<&Value>,
) -> Result<(), NoMemory>
    ensures { OnOk result (text.new ≡ text.old ++ place_text number home marks
        (option_copied item.entry)) }
{
    text.append(b"  subgraph cluster_")?;
    append_decimal(alloc, text, home as u128)?;
    text.append(b" { j")?;
    append_decimal(alloc, text, number as u128)?;
    text.append(b" [")?;
    append_point(alloc, text, marks, item)?;
    text.append(b"];")
}

/// A joint as it is drawn: its number and the node that it is at, how lines go to the primitives on
/// both sides, and the marks that are shown.
#[derive(Clone, Copy)]
pub(crate) struct DrawnJoint {
    pub number: usize,
    pub home: usize,
    pub joint: Joint,
    pub giver: Strand,
    pub taker: Strand,
    pub marks: Option<JointMarks>,
}

/// Adds the point of a joint in its node, and what else stands at it there.
#[tactic(auto, unfolding(crate::specs::Joints::spot_text))]
fn append_spot(
    alloc: Global,
    text: &mut Bytes,
    spot: DrawnJoint,
    item: Option<&Value>,
) -> Result<(), NoMemory>
    ensures { OnOk result (text.new ≡ text.old ++ spot_text spot.number spot.home spot.joint
        spot.giver spot.taker spot.marks (option_copied item.entry)) }
{
    append_place(alloc, text, spot.number, spot.home, spot.marks, item)?;
    append_member(alloc, text, spot.joint.giver.primitive, spot.giver)?;
    append_member(alloc, text, spot.joint.taker.primitive, spot.taker)?;
    text.append(b" }")
}

/// Adds the lines from a joint to the primitives on both sides.
#[tactic(auto, unfolding(crate::specs::Joints::sides_text))]
fn append_sides(alloc: Global, text: &mut Bytes, spot: DrawnJoint) -> Result<(), NoMemory>
    ensures { let first = giver_mark spot.marks in let second = taker_mark spot.marks in
        OnOk result (text.new ≡ text.old
        ++ sides_text spot.number spot.joint spot.giver spot.taker first second) }
{
    let first = giver_mark(spot.marks);
    let second = taker_mark(spot.marks);
    let giver = spot.joint.giver.primitive;
    append_giver(alloc, text, spot.number, giver, spot.giver, first)?;
    append_taker(
        alloc,
        text,
        spot.number,
        spot.joint.taker,
        spot.taker,
        second,
    )?;
    text.append(b"\n")
}

/// Adds the line of a joint: its point in its node, with what stands at it there, and the lines to
/// the primitives on both sides.
#[tactic(auto, unfolding(crate::specs::Joints::joint_line))]
pub(crate) fn append_joint(
    alloc: Global,
    text: &mut Bytes,
    spot: DrawnJoint,
    item: Option<&Value>,
) -> Result<(), NoMemory>
    ensures { OnOk result (text.new ≡ text.old ++ joint_line spot.number spot.home spot.joint
        spot.giver spot.taker spot.marks (option_copied item.entry)) }
{
    append_spot(alloc, text, spot, item)?;
    append_sides(alloc, text, spot)
}
