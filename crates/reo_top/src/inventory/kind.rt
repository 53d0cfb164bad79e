//! What primitives are called.
ghost use Rattle.std.specs.Prelude.{◌≡◌};
ghost use Rattle.reo_top.specs.inventory.Kinds.{word_of, number_of, has_two};

use reo_kinds::Kind;

/// The word for a primitive.
pub(crate) fn word_of(kind: &Kind) -> &'static [u8]
    ensures { result.now ≡ word_of kind.now }
{
    match kind {
        Kind::Writer(_) => b"writer",
        Kind::Taker(_) => b"taker",
        Kind::Sync => b"sync",
        Kind::Lossy => b"lossy",
        Kind::SyncDrain => b"syncdrain",
        Kind::AsyncDrain => b"asyncdrain",
        Kind::Store(_) => b"fifo",
        Kind::Shift(_) => b"shift",
        Kind::Variable(_) => b"variable",
        Kind::Quota(_) => b"quota",
        Kind::Filter(_) => b"filter",
        Kind::Map(_) => b"map",
        Kind::Merger(_) => b"merger",
        Kind::Replicator(_) => b"replicator",
    }
}

/// The number behind the word: how many items a buffer may have, or how much of a quota is left.
pub(crate) fn number_of(kind: &Kind) -> Option<usize>
    ensures { result ≡ number_of kind.now }
{
    match kind {
        Kind::Store(buffer) | Kind::Shift(buffer) => Some(buffer.size()),
        Kind::Quota(left) => Some(*left as usize),
        _ => None,
    }
}

/// Whether a primitive stands between two nodes: ports, mergers and replicators are at one.
pub(crate) fn has_two(kind: &Kind) -> bool
    ensures { result ≡ has_two kind.now }
{
    match kind {
        Kind::Writer(_) | Kind::Taker(_) | Kind::Merger(_) | Kind::Replicator(_) => false,
        _ => true,
    }
}
