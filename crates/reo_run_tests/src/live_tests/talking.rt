//! How circuits are talked to.
ghost use Rattle.std.specs.Prelude.{◌≡◌, ◌<◌, ◌≤◌, ◌+◌, ◌^◌, length, false, Ok};
ghost use Rattle.reo_live.specs.declared.talk.fault.Going.TheVariants as goings;

use crate::live_tests::circuits::live_of;
use reo_io::{Sink, Source};
use reo_kinds::Kind;
use reo_live::{Going, Heard, Live, LiveFault, hear};
use std::alloc::Global;

/// A circuit, and the budget of its rounds.
#[derive(Clone, Copy)]
pub struct Talk<'a> {
    pub circuit: &'a [u8],
    pub budget: u32,
}

/// How bytes are cut: a first piece of so many, and others of another size.
#[derive(Clone, Copy)]
pub struct Cut {
    pub first: usize,
    pub others: usize,
}

/// Feeds bytes in pieces of a size.
fn feed_all<S: Sink>(
    alloc: Global,
    live: &mut Live<Kind>,
    bytes: &[u8],
    size: usize,
    out: &mut S,
) -> Result<Going, LiveFault>
    requires unspent { live.old.live.stand.over ≡ false }
    requires few { live.old.live.stand.lines + length bytes.now < 2 ^ 62 }
    ensures unspent { result ≡ Ok goings.More → live.new.live.stand.over ≡ false }
    ensures few { live.new.live.stand.lines ≤ live.old.live.stand.lines + length bytes.now }
{
    let mut rest = bytes;
    'pieces: while !rest.is_empty() {
        let (piece, more) = rest.split_at(size.max(1).min(rest.len()));
        match live.feed(alloc, piece, out)? {
            Going::Ended => return Ok(Going::Ended),
            Going::More => rest = more,
        }
    }
    Ok(Going::More)
}

/// Feeds bytes in pieces, and then their end.
fn feed_cut<S: Sink>(
    alloc: Global,
    live: &mut Live<Kind>,
    bytes: &[u8],
    cut: Cut,
    out: &mut S,
) -> Result<(), LiveFault>
    requires unspent { live.old.live.stand.over ≡ false }
    requires lines { live.old.live.stand.lines ≡ 0 }
    requires few { length bytes.now < 2 ^ 32 }
{
    let (first, others) = bytes.split_at(cut.first.min(bytes.len()));
    if live.feed(alloc, first, out)? == Going::Ended {
        return Ok(());
    }
    match feed_all(alloc, live, others, cut.others, out)? {
        Going::Ended => Ok(()),
        Going::More => live.finish(alloc, out),
    }
}

/// What feeding a circuit short bytes comes to.
pub fn fed<S: Sink>(
    alloc: Global,
    talk: Talk<'_>,
    bytes: &[u8],
    cut: Cut,
    out: &mut S,
) -> Option<Result<(), LiveFault>> {
    if 1 << 32 <= bytes.len() {
        return None;
    }
    let mut live = live_of(alloc, talk.circuit, talk.budget)?;
    let came = feed_cut(alloc, &mut live, bytes, cut, out);
    live.release();
    Some(came)
}

/// What a circuit that hears a source comes to.
pub fn heard<R: Source, S: Sink>(
    alloc: Global,
    talk: Talk<'_>,
    source: &mut R,
    out: &mut S,
) -> Option<Heard> {
    let mut live = live_of(alloc, talk.circuit, talk.budget)?;
    let came = hear(alloc, &mut live, source, out);
    live.release();
    Some(came)
}
