//! How the ends of a primitive are drawn.
ghost use Rattle.std.specs.Prelude.{◌≡◌, option_copied};
ghost use Rattle.reo_drawing.specs.Strands.{strand_of, style_text, source_arrow, sink_arrow, is_inside, is_back};

use reo_kinds::Kind;

/// How the ends of a primitive are drawn.
#[derive(Clone, Copy, Debug, PartialEq, Eq)]
pub(crate) enum Strand {
    /// Of a port: from the box, or to it.
    Port,
    /// Of a channel whose items go on from one end to the other.
    Channel,
    /// Of one that may lose them.
    Lossy,
    /// Of one with two source ends.
    Drain,
    /// Of a node's own merger or replicator.
    Inside,
}

/// How the ends of a primitive are drawn, and as those of a plain channel where there is none.
pub(crate) fn strand_of(kind: Option<&Kind>) -> Strand
    ensures { result ≡ strand_of (option_copied kind.entry) }
{
    match kind {
        Some(Kind::Writer(_) | Kind::Taker(_)) => Strand::Port,
        Some(Kind::Lossy | Kind::Shift(_)) => Strand::Lossy,
        Some(Kind::SyncDrain | Kind::AsyncDrain) => Strand::Drain,
        Some(Kind::Merger(_) | Kind::Replicator(_)) => Strand::Inside,
        _ => Strand::Channel,
    }
}

impl Strand {
    /// The style of its lines.
    pub(crate) fn style(self) -> &'static [u8]
        ensures { result.now ≡ style_text self }
    {
        match self {
            Strand::Lossy => b"dashed",
            _ => b"solid",
        }
    }

    /// The arrow at a joint to which items come from it.
    pub(crate) fn sink_arrow(self) -> &'static [u8]
        ensures { result.now ≡ sink_arrow self }
    {
        match self {
            Strand::Channel | Strand::Lossy => b"normal",
            _ => b"",
        }
    }

    /// The arrow at the primitive, to which items come from a joint.
    pub(crate) fn source_arrow(self) -> &'static [u8]
        ensures { result.now ≡ source_arrow self }
    {
        match self {
            Strand::Drain => b"normal",
            Strand::Port => b"vee",
            _ => b"",
        }
    }

    /// Whether it stands at one node.
    pub(crate) fn is_inside(self) -> bool
        ensures { result ≡ is_inside self }
    {
        matches!(self, Strand::Inside)
    }

    /// Whether its end of a number is drawn from the primitive, though items go to it.
    pub(crate) fn is_back(self, end: usize) -> bool
        ensures { result ≡ is_back self end }
    {
        match self {
            Strand::Drain => end == 1,
            _ => false,
        }
    }
}
