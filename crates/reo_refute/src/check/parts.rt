//! The parts of a log, one for each live place.
ghost use Rattle.std.specs.Prelude.{◌≡◌, ◌<◌, ◌+◌, ℕ, List, OnOk, map, length};
ghost use Rattle.reo_net_base.specs.Net.{net_of};
ghost use Rattle.reo_refute_base.specs.Places.{IsLive};
ghost use Rattle.reo_refute_parts.specs.places.AllowedRows.{AreAgreeing, AreAllowedRows};
ghost use Rattle.reo_refute_live.specs.OpenBranch.{IsClosed};
ghost use Rattle.reo_refute.specs.check.Judging.{IsPlaceTaken, ArePartsTaken};
ghost use Rattle.reo_refute.specs.check.Reading.{IsShort};
ghost use Rattle.reo_refute.specs.Footing.{IsFooting};

use crate::check::lines::Lines;
use crate::check::part::{check_part, take_at};
use crate::check::stop::LogStop;
use crate::footing::Footing;
use reo_net_base::Primitive;
use reo_refute_live::{Judged, OpenBranch};
use reo_refute_parts::AllowedRows;

/// Takes the part of a live place: the line that begins it, and its branch.
fn check_live<P: Primitive>(
    round: &Footing<'_, P>,
    number: usize,
    allowed: &AllowedRows,
    live: &mut OpenBranch,
    lines: &mut Lines,
    rows: &mut Vec<u8>,
) -> Result<(), LogStop>
    requires round { IsFooting (net_of P.behaviour round.now.circuit.now) round.now }
    requires allowed { AreAllowedRows (net_of P.behaviour round.now.circuit.now) round.now.turn
        round.now.given.now number allowed.now }
    requires closed { IsClosed round.now.lists.now live.old }
    requires live { IsLive (net_of P.behaviour round.now.circuit.now) round.now.turn
        round.now.given.now number }
    requires short { IsShort lines.old }
    ensures taken { let net = net_of P.behaviour round.now.circuit.now in
        IsPlaceTaken net round.now.turn round.now.given.now round.now.lists.now number lines.old
        lines.new result }
    ensures closed { OnOk result (IsClosed round.now.lists.now live.new) }
{
    match take_at(lines, number) {
        Err(stop) => Err(stop),
        Ok(()) => {
            let judged = Judged {
                circuit: round.circuit,
                turn: round.turn,
                given: round.given,
                number,
                allowed,
                lists: round.lists,
                tables: round.tables,
            };
            check_part(round.alloc, &judged, live, lines, rows)
        }
    }
}

/// Takes the part of a place, if it is live, and goes past the place.
fn check_place<P: Primitive>(
    round: &Footing<'_, P>,
    number: usize,
    allowed: &mut AllowedRows,
    live: &mut OpenBranch,
    lines: &mut Lines,
    rows: &mut Vec<u8>,
) -> Result<(), LogStop>
    requires round { IsFooting (net_of P.behaviour round.now.circuit.now) round.now }
    requires number { number < length round.now.places.now }
    requires agreeing { AreAgreeing (net_of P.behaviour round.now.circuit.now) round.now.turn
        round.now.given.now number allowed.old.agreeing }
    requires closed { IsClosed round.now.lists.now live.old }
    requires short { IsShort lines.old }
    ensures taken { let net = net_of P.behaviour round.now.circuit.now in
        IsPlaceTaken net round.now.turn round.now.given.now round.now.lists.now number lines.old
        lines.new result }
    ensures agreeing { let net = net_of P.behaviour round.now.circuit.now in
        OnOk result (AreAgreeing net round.now.turn round.now.given.now (number + 1)
        allowed.new.agreeing) }
    ensures closed { OnOk result (IsClosed round.now.lists.now live.new) }
{
    let place = round.places[number];
    if allowed.come_to(round.circuit, round.turn, round.given, number, place)? {
        check_live(round, number, allowed, live, lines, rows)?;
    }
    allowed.pass(round.circuit, round.turn, round.given, number, place);
    Ok(())
}

/// Takes all parts, behind which no line is left.
pub(crate) fn check_parts<P: Primitive>(
    round: &Footing<'_, P>,
    lines: &mut Lines,
) -> Result<(), LogStop>
    requires round { IsFooting (net_of P.behaviour round.now.circuit.now) round.now }
    requires short { IsShort lines.old }
    ensures { let net = net_of P.behaviour round.now.circuit.now in
        ArePartsTaken net round.now.turn round.now.given.now round.now.lists.now lines.old result }
{
    let mut allowed = AllowedRows::new(round.alloc, round.circuit)?;
    let mut live = OpenBranch::new(round.alloc, round.lists)?;
    let mut rows = Vec::new(round.alloc);
    for number in 0..round.places.len() {
        match check_place(round, number, &mut allowed, &mut live, lines, &mut rows) {
            Err(stop) => return Err(stop),
            Ok(()) => {}
        }
    }
    if lines.left.is_done() {
        Ok(())
    } else {
        Err(LogStop::Line(lines.count + 1))
    }
}
