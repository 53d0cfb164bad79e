//! The line of a primitive.
ghost use Rattle.std.specs.Prelude.{◌≡◌, ◌++◌, OnOk};
ghost use Rattle.reo_drawing.specs.Vertices.{shape_text, lost_text, vertex_line};

use crate::label::append_kind;
use crate::label_texts::append_label;
use reo_kinds::Kind;
use reo_values::{Bytes, NoMemory, append_decimal};
use std::alloc::Global;

/// The shape of a primitive.
fn shape_text(kind: &Kind) -> &'static [u8]
    ensures { result.now ≡ shape_text kind.now }
{
    match kind {
        Kind::Writer(_) | Kind::Taker(_) | Kind::Store(_) => b"box",
        Kind::Sync | Kind::Lossy | Kind::SyncDrain => b"point width=0.01",
        Kind::AsyncDrain | Kind::Filter(_) => b"plaintext margin=0 width=0 height=0",
        Kind::Shift(_) => b"box style=dashed",
        Kind::Variable(_) => b"box style=rounded",
        Kind::Quota(_) => b"octagon",
        Kind::Map(_) => b"cds",
        Kind::Merger(_) => b"triangle orientation=270 width=0.2 height=0.2 fixedsize=true",
        Kind::Replicator(_) => b"triangle orientation=90 width=0.2 height=0.2 fixedsize=true",
    }
}

/// Adds that an item is lost, where one is.
fn append_lost(text: &mut Bytes, lost: bool) -> Result<(), NoMemory>
    ensures { OnOk result (text.new ≡ text.old ++ lost_text lost) }
{
    if lost {
        text.append(b" xlabel=\"lost\"")
    } else {
        Ok(())
    }
}

/// Adds the line of a primitive: its number, its shape, and what stands in it.
#[tactic(auto, unfolding(crate::specs::Vertices::vertex_line))]
pub(crate) fn append_vertex(
    alloc: Global,
    text: &mut Bytes,
    number: usize,
    name: &[u8],
    kind: &Kind,
    lost: bool,
) -> Result<(), NoMemory>
    ensures { OnOk result (text.new ≡ text.old ++ vertex_line number name.now kind.now lost) }
{
    let mut words = Bytes::new(alloc);
    append_kind(alloc, &mut words, name, kind)?;
    text.append(b"  p")?;
    append_decimal(alloc, text, number as u128)?;
    text.append(b" [shape=")?;
    text.append(shape_text(kind))?;
    text.append(b" label=")?;
    append_label(alloc, text, words.as_slice())?;
    append_lost(text, lost)?;
    text.append(b"];\n")
}
