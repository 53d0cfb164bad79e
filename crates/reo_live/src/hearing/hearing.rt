//! One piece of what a source gives, and its end.
ghost use Rattle.std.specs.Prelude.{◌≡◌, ◌<◌, ◌≤◌, ◌+◌, ◌-◌, ◌^◌, Err, false, length, take, IfOk};
ghost use Rattle.reo_io.specs.Causes.{Rose};
ghost use Rattle.reo_rounds.specs.Rules.{rules_of};
ghost use Rattle.reo_live.specs.hearing.Pieces.{IsPiece, IsClose, heard_by};
ghost use Rattle.reo_live.specs.declared.hearing.heard.Heard.TheVariants as heards;

use crate::hearing::heard::Heard;
use crate::talk::{Going, Live, LiveFault};
use reo_io::Sink;
use reo_net_base::Ported;
use std::alloc::Global;

/// The most bytes that are heard.
pub(crate) const MOST: u64 = 1 << 32;

/// How hearing has ended, by what a call that hears something returned.
fn heard_of(fault: LiveFault) -> Heard
    ensures { result ≡ heard_by fault }
{
    match fault {
        LiveFault::Failed => Heard::Broken,
        LiveFault::Wide { .. } | LiveFault::Spent { .. } => Heard::Stopped,
        LiveFault::NoMemory => Heard::NoMemory,
    }
}

/// Hears a piece behind so many bytes, as far as it lies within those that are heard. It answers
/// the length of the piece, or how hearing has ended.
pub(crate) fn hear_piece<P: Ported, S: Sink>(
    alloc: Global,
    live: &mut Live<P>,
    taken: u64,
    piece: &[u8],
    out: &mut S,
) -> Result<u64, Heard>
    requires open { live.old.live.stand.over ≡ false }
    requires lines { live.old.live.stand.lines ≤ taken }
    requires taken { taken ≤ 2 ^ 32 }
    requires piece { length piece.now ≤ 65536 }
    ensures piece { let r = rules_of P.behaviour P.settled P.port_state P.placed P.withdrawn in
        let bytes = take (2 ^ 32 - taken) piece.now in
        IsPiece r live.old.ports live.old.budget (S.told out.old) (S.told out.new)
        live.old.live bytes live.new.live result }
    ensures count { IfOk result (λ count. count ≡ length piece.now) }
    ensures lines { IfOk result (λ count. live.new.live.stand.lines ≤ taken + count) }
    ensures ports { live.new.ports ≡ live.old.ports }
    ensures budget { live.new.budget ≡ live.old.budget }
    ensures cause { result ≡ Err heards.Broken → Rose (S.faults out.old) (S.faults out.new) }
    ensures later { S.faults out.old ≤ S.faults out.new }
    ensures risen { S.faults out.old < S.faults out.new → result ≡ Err heards.Broken }
{
    let few = (MOST - taken).min(piece.len() as u64) as usize;
    match live.feed(alloc, &piece[..few], out) {
        Ok(Going::More) => Ok(piece.len() as u64),
        Ok(Going::Ended) => Err(Heard::Ended),
        Err(fault) => Err(heard_of(fault)),
    }
}

/// Hears that the input ends.
pub(crate) fn hear_end<P: Ported, S: Sink>(alloc: Global, live: &mut Live<P>, out: &mut S) -> Heard
    requires open { live.old.live.stand.over ≡ false }
    requires few { live.old.live.stand.lines ≤ 2 ^ 32 }
    ensures closed { let r = rules_of P.behaviour P.settled P.port_state P.placed P.withdrawn in
        IsClose r live.old.ports live.old.budget (S.told out.old) (S.told out.new)
        live.old.live result }
    ensures ports { live.new.ports ≡ live.old.ports }
    ensures budget { live.new.budget ≡ live.old.budget }
    ensures cause { result ≡ heards.Broken → Rose (S.faults out.old) (S.faults out.new) }
    ensures later { S.faults out.old ≤ S.faults out.new }
    ensures risen { S.faults out.old < S.faults out.new → result ≡ heards.Broken }
{
    match live.finish(alloc, out) {
        Ok(()) => Heard::Ended,
        Err(fault) => heard_of(fault),
    }
}
