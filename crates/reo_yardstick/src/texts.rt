//! Circuit texts by chance.
use crate::chance::Chance;
use std::alloc::{AllocError, Global};

/// The front of a circuit text, the nodes from which channels go, and those to which they go.
type Frame = (
    &'static str,
    &'static [&'static str],
    &'static [&'static str],
);

/// Fronts with two to four ports and up to two nodes between them.
const FRAMES: &[Frame] = &[
    ("in a: t, out b: t) {", &[" a"], &[" b"]),
    (
        "in a: t, out b: t) { node m: t;",
        &[" a", " m"],
        &[" m", " b"],
    ),
    (
        "in a: t, out b: t) { node m: t; node n: t;",
        &[" a", " m", " n"],
        &[" m", " n", " b"],
    ),
    ("in a: t, in c: t, out b: t) {", &[" a", " c"], &[" b"]),
    (
        "in a: t, in c: t, out b: t) { node m: t;",
        &[" a", " m", " c"],
        &[" m", " b"],
    ),
    ("in a: t, out b: t, out d: t) {", &[" a"], &[" b", " d"]),
    (
        "in a: t, out b: t, out d: t) { node m: t;",
        &[" a", " m"],
        &[" m", " d", " b"],
    ),
    (
        "in a: t, in c: t, out b: t, out d: t) {",
        &[" a", " c"],
        &[" b", " d"],
    ),
    (
        "in a: t, in c: t, out b: t, out d: t) { node m: t;",
        &[" a", " m", " c"],
        &[" m", " b", " d"],
    ),
];

/// The words of channels before and behind their nodes. The first two take at both nodes.
const CHANNELS: &[(&str, &str)] = &[
    (" syncdrain", ";"),
    (" asyncdrain", ";"),
    (" sync", ";"),
    (" sync", ";"),
    (" sync", ";"),
    (" lossy", ";"),
    (" lossy", ";"),
    (" fifo1", ";"),
    (" fifo1", " with 1;"),
    (" filter", " when it > 1;"),
    (" filter", " when it != 2;"),
    (" map", " to 3 - it;"),
    (" map", " to (it + 1) % 4;"),
];

/// One of some nodes: that of a place, where there is one so far, and else any.
fn chosen(chance: &mut Chance, nodes: &[&'static str], place: usize) -> &'static str {
    if nodes.is_empty() {
        return "";
    }
    if place < nodes.len() {
        return nodes[place];
    }
    nodes[chance.below(nodes.len())]
}

/// Writes a channel between two nodes.
fn put_channel(
    text: &mut String,
    chance: &mut Chance,
    frame: &Frame,
    place: usize,
) -> Result<(), AllocError> {
    let (_, sources, targets) = *frame;
    let channel = chance.below(CHANNELS.len());
    let (word, behind) = CHANNELS[channel];
    let from = chosen(chance, sources, place);
    let to = if channel < 2 {
        chosen(chance, sources, sources.len())
    } else {
        chosen(chance, targets, place)
    };
    for part in [word, from, to, behind] {
        text.push_str(part)?;
    }
    Ok(())
}

/// A circuit text: a front, and two to five channels.
pub fn text_of(alloc: Global, chance: &mut Chance) -> Result<String, AllocError> {
    let frame = &FRAMES[chance.below(FRAMES.len())];
    let mut text = String::new(alloc);
    text.push_str("type t = int 0..3; connector main(")?;
    text.push_str(frame.0)?;
    for place in 0..2 + chance.below(4) {
        put_channel(&mut text, chance, frame, place)?;
    }
    text.push_str(" }")?;
    Ok(text)
}
