//! One take from a source, and all of them.
ghost use Rattle.std.specs.Prelude.{◌≡◌, ◌<◌, ◌≤◌, ◌+◌, ◌^◌, Err, false, length, IfOk};
ghost use Rattle.reo_io.specs.Causes.{Rose};
ghost use Rattle.reo_net_base.specs.Net.{net_of};
ghost use Rattle.reo_rounds.specs.Order.{HasOrder};
ghost use Rattle.reo_rounds.specs.Rules.{rules_of};
ghost use Rattle.reo_live.specs.base.Live.{beginning};
ghost use Rattle.reo_live.specs.closings.Sources.{source_change};
ghost use Rattle.reo_live.specs.hearing.Heard.{GoesOn, HeardFrom};
ghost use Rattle.reo_live.specs.declared.hearing.heard.Heard.TheVariants as heards;

use crate::base::{cuts_change_nothing, hearing_exists};
use crate::hearing::heard::Heard;
use crate::hearing::hearing::{MOST, hear_end, hear_piece};
use crate::talk::Live;
use reo_io::{Sink, Source, SourceFault};
use reo_net_base::Ported;
use std::alloc::Global;

/// The most bytes of a piece.
const PIECE: usize = 65536;

/// Takes a piece behind so many bytes, at most one byte more than is heard, and hears it, or that
/// the input ends. It answers the length of the piece, or how hearing has ended.
fn hear_next<P: Ported, R: Source, S: Sink>(
    alloc: Global,
    live: &mut Live<P>,
    taken: u64,
    room: &mut [u8],
    source: &mut R,
    out: &mut S,
) -> Result<u64, Heard>
    requires open { live.old.live.stand.over ≡ false }
    requires lines { live.old.live.stand.lines ≤ taken }
    requires taken { taken ≤ 2 ^ 32 }
    requires room { length room.old ≡ 65536 }
    ensures heard { let r = rules_of P.behaviour P.settled P.port_state P.placed P.withdrawn in
        let change = source_change R.told R.given R.ends R.faults source.old source.new in
        GoesOn r live.old.ports live.old.budget (S.told out.old) (S.told out.new) change
        live.old.live taken live.new.live result }
    ensures some { IfOk result (λ count. 0 < count) }
    ensures few { IfOk result (λ count. taken + count ≤ 2 ^ 32 + 1) }
    ensures open { IfOk result (λ _. live.new.live.stand.over ≡ false) }
    ensures lines { IfOk result (λ count. live.new.live.stand.lines ≤ taken + count) }
    ensures ports { live.new.ports ≡ live.old.ports }
    ensures budget { live.new.budget ≡ live.old.budget }
    ensures missed { result ≡ Err heards.Missed
        → Rose (R.faults source.old) (R.faults source.new) }
    ensures missed_later { R.faults source.old ≤ R.faults source.new }
    ensures missed_risen { R.faults source.old < R.faults source.new
        → result ≡ Err heards.Missed }
    ensures cause { result ≡ Err heards.Broken → Rose (S.faults out.old) (S.faults out.new) }
    ensures later { S.faults out.old ≤ S.faults out.new }
    ensures risen { S.faults out.old < S.faults out.new → result ≡ Err heards.Broken }
{
    cuts_change_nothing::<P>();
    hearing_exists::<P>();
    let wanted = PIECE.min((MOST + 1 - taken) as usize);
    let room = &mut room[..wanted];
    match source.take(room) {
        Ok(0) => Err(hear_end(alloc, live, out)),
        Ok(count) => hear_piece(alloc, live, taken, &room[..count], out),
        Err(SourceFault::Failed) => Err(Heard::Missed),
    }
}

/// Hears all that a source gives to a circuit that has heard nothing, until the event `end` is
/// judged, a round cannot be planned, there are too many bytes, the input ends, or something fails.
/// All answers to a piece are put before the next is taken. A piece has at most 65,536 bytes, and
/// at most 2^32 + 1 bytes are taken.
///
/// `Missed` comes only where the source's count of faults rose, and it rises nowhere else; the
/// same holds of `Broken` and the sink.
pub fn hear<P: Ported, R: Source, S: Sink>(
    alloc: Global,
    live: &mut Live<P>,
    source: &mut R,
    out: &mut S,
) -> Heard
    requires fresh { live.old.live ≡ beginning live.old.live.stand.circuit }
    requires order { HasOrder (net_of P.behaviour live.old.live.stand.circuit) }
    ensures heard { let r = rules_of P.behaviour P.settled P.port_state P.placed P.withdrawn in
        let change = source_change R.told R.given R.ends R.faults source.old source.new in
        HeardFrom r live.old.ports live.old.budget live.old.live.stand.circuit
        (S.told out.old) (S.told out.new) change result }
    ensures missed { result ≡ heards.Missed → Rose (R.faults source.old) (R.faults source.new) }
    ensures missed_later { R.faults source.old ≤ R.faults source.new }
    ensures missed_risen { R.faults source.old < R.faults source.new → result ≡ heards.Missed }
    ensures cause { result ≡ heards.Broken → Rose (S.faults out.old) (S.faults out.new) }
    ensures later { S.faults out.old ≤ S.faults out.new }
    ensures risen { S.faults out.old < S.faults out.new → result ≡ heards.Broken }
{
    let mut room = [0; PIECE];
    let mut taken = 0;
    'hearing: while taken <= MOST {
        match hear_next(alloc, live, taken, &mut room, source, out) {
            Ok(count) => taken += count,
            Err(heard) => return heard,
        }
    }
    Heard::Many
}
