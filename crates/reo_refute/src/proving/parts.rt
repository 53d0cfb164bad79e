//! The parts of a log, one for each live place.
ghost use Rattle.std.specs.Prelude.{◌≡◌, ◌≤◌, ◌<◌, ◌^◌, ◌+◌, ℕ, List, OnOk, map, length};
ghost use Rattle.reo_net_base.specs.Net.{net_of};
ghost use Rattle.reo_net_base.specs.First.{positions};
ghost use Rattle.reo_refute_base.specs.Places.{IsLive, NoneBefore};
ghost use Rattle.reo_refute_live.specs.OpenBranch.{IsClosed};
ghost use Rattle.reo_refute_parts.specs.places.AllowedRows.{AreAgreeing, AreAllowedRows};
ghost use Rattle.reo_refute.specs.proving.Making.{AreFew, ArePartsMade};
ghost use Rattle.reo_refute.specs.Footing.{IsFooting};

use crate::footing::Footing;
use crate::proving::branch::put_branch;
use crate::proving::scratch::Scratch;
use reo_joint_values::choices_are_assignments;
use reo_net_base::Primitive;
use reo_net_laws::rows_differ;
use reo_refute_base::LogLine;
use reo_refute_live::Judged;
use reo_refute_parts::{AllowedRows, put_line};
use reo_values::{Bytes, NoMemory};

/// Writes the part of a live place: the line that begins it, and its branch.
fn put_live<P: Primitive>(
    round: &Footing<'_, P>,
    number: usize,
    allowed: &AllowedRows,
    scratch: &mut Scratch,
    out: &mut Bytes,
) -> Result<(), NoMemory>
    requires round { IsFooting (net_of P.behaviour round.now.circuit.now) round.now }
    requires first { NoneBefore (net_of P.behaviour round.now.circuit.now) round.now.turn
        round.now.given.now }
    requires few { AreFew round.now.lists.now }
    requires allowed { AreAllowedRows (net_of P.behaviour round.now.circuit.now) round.now.turn
        round.now.given.now number allowed.now }
    requires live { IsLive (net_of P.behaviour round.now.circuit.now) round.now.turn
        round.now.given.now number }
    requires small { number < 2 ^ 63 }
    requires closed { IsClosed round.now.lists.now scratch.old.live }
    ensures closed { OnOk result (IsClosed round.now.lists.now scratch.new.live) }
    ensures made { let net = net_of P.behaviour round.now.circuit.now in
        OnOk result (ArePartsMade net round.now.turn round.now.given.now round.now.lists.now number
        (number + 1) out.old
        out.new) }
{
    round.circuit.known();
    rows_differ();
    choices_are_assignments();
    let _order = round.circuit.order();
    put_line(round.alloc, out, LogLine::At(number))?;
    let judged = Judged {
        circuit: round.circuit,
        turn: round.turn,
        given: round.given,
        number,
        allowed,
        lists: round.lists,
        tables: round.tables,
    };
    put_branch(round.alloc, &judged, scratch, out)?;
    Ok(())
}

/// Writes the part of a place, if it is live, and goes past the place.
fn put_place<P: Primitive>(
    round: &Footing<'_, P>,
    number: usize,
    allowed: &mut AllowedRows,
    scratch: &mut Scratch,
    out: &mut Bytes,
) -> Result<(), NoMemory>
    requires round { IsFooting (net_of P.behaviour round.now.circuit.now) round.now }
    requires number { number < length round.now.places.now }
    requires first { NoneBefore (net_of P.behaviour round.now.circuit.now) round.now.turn
        round.now.given.now }
    requires few { AreFew round.now.lists.now }
    requires agreeing { AreAgreeing (net_of P.behaviour round.now.circuit.now) round.now.turn
        round.now.given.now number allowed.old.agreeing }
    requires small { number < 2 ^ 63 }
    requires closed { IsClosed round.now.lists.now scratch.old.live }
    ensures closed { OnOk result (IsClosed round.now.lists.now scratch.new.live) }
    ensures made { let net = net_of P.behaviour round.now.circuit.now in
        OnOk result (ArePartsMade net round.now.turn round.now.given.now round.now.lists.now number
        (number + 1) out.old
        out.new) }
    ensures agreeing { let net = net_of P.behaviour round.now.circuit.now in
        OnOk result (AreAgreeing net round.now.turn round.now.given.now (number + 1)
        allowed.new.agreeing) }
{
    let place = round.places[number];
    if allowed.come_to(round.circuit, round.turn, round.given, number, place)? {
        put_live(round, number, allowed, scratch, out)?;
    }
    allowed.pass(round.circuit, round.turn, round.given, number, place);
    Ok(())
}

/// Writes the parts of all live places.
pub(crate) fn put_parts<P: Primitive>(
    round: &Footing<'_, P>,
    out: &mut Bytes,
) -> Result<(), NoMemory>
    requires round { IsFooting (net_of P.behaviour round.now.circuit.now) round.now }
    requires first { NoneBefore (net_of P.behaviour round.now.circuit.now) round.now.turn
        round.now.given.now }
    requires few { AreFew round.now.lists.now }
    ensures { let net = net_of P.behaviour round.now.circuit.now in
        OnOk result (ArePartsMade net round.now.turn round.now.given.now round.now.lists.now 0
        (length (positions net round.now.turn))
        out.old out.new) }
{
    let mut allowed = AllowedRows::new(round.alloc, round.circuit)?;
    let mut scratch = Scratch::new(round.alloc, round.tables.len(), round.lists)?;
    for number in 0..round.places.len() {
        put_place(round, number, &mut allowed, &mut scratch, out)?;
    }
    Ok(())
}
