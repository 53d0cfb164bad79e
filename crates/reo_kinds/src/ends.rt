//! How the ends of the kinds lie.
ghost use Rattle.std.specs.Prelude.{◌≡◌};
ghost use Rattle.reo_kinds.specs.Forms.{end_count, side_count, side_in, takes_at, decides_in};
ghost use Rattle.reo_kinds.specs.Kinds.{kind_ends};

use crate::kind::Kind;
use reo_net_base::Branches;

/// How the ends of a kind lie.
#[derive(Clone, Copy)]
pub enum EndLayout {
    /// One end, which gives.
    Out,
    /// One end, which takes in.
    In,
    /// One end that takes in and one that gives, at one side.
    InOut,
    /// Two ends that take in, at one side.
    InIn,
    /// One end that takes in and one that gives, each a side of its own.
    MouthTail,
    /// So many ends that take in, and then one that gives, at one side.
    Inputs(Branches),
    /// One end that takes in, and then so many that give, at one side.
    Outputs(Branches),
}

/// How the ends of a kind lie.
pub fn kind_ends(kind: &Kind) -> EndLayout
    ensures { result ≡ kind_ends kind.now }
{
    match kind {
        Kind::Writer(_) => EndLayout::Out,
        Kind::Taker(_) => EndLayout::In,
        Kind::SyncDrain | Kind::AsyncDrain => EndLayout::InIn,
        Kind::Store(_) | Kind::Shift(_) | Kind::Variable(_) => EndLayout::MouthTail,
        Kind::Merger(branches) => EndLayout::Inputs(*branches),
        Kind::Replicator(branches) => EndLayout::Outputs(*branches),
        _ => EndLayout::InOut,
    }
}

impl EndLayout {
    /// How many ends there are.
    pub fn count(self) -> usize
        ensures { result ≡ end_count self }
    {
        match self {
            EndLayout::Out | EndLayout::In => 1,
            EndLayout::InOut | EndLayout::InIn | EndLayout::MouthTail => 2,
            EndLayout::Inputs(branches) | EndLayout::Outputs(branches) => branches.count + 1,
        }
    }

    /// How many sides there are.
    pub fn sides(self) -> usize
        ensures { result ≡ side_count self }
    {
        if matches!(self, EndLayout::MouthTail) {
            2
        } else {
            1
        }
    }

    /// The side of an end.
    pub fn side_of(self, end: usize) -> usize
        ensures { result ≡ side_in self end }
    {
        if matches!(self, EndLayout::MouthTail) {
            end
        } else {
            0
        }
    }

    /// Whether items enter at an end.
    pub fn takes_in(self, end: usize) -> bool
        ensures { result ≡ takes_at self end }
    {
        match self {
            EndLayout::Out => false,
            EndLayout::In | EndLayout::InIn => true,
            EndLayout::InOut | EndLayout::MouthTail | EndLayout::Outputs(_) => end == 0,
            EndLayout::Inputs(branches) => end < branches.count,
        }
    }

    /// The end whose item decides what a row gives, or `None` where the state alone decides.
    pub fn from(self, row: usize) -> Option<usize>
        ensures { result ≡ decides_in self row }
    {
        match self {
            EndLayout::Out | EndLayout::In | EndLayout::InIn | EndLayout::MouthTail => None,
            EndLayout::InOut | EndLayout::Outputs(_) => Some(0),
            EndLayout::Inputs(_) => Some(row),
        }
    }
}
