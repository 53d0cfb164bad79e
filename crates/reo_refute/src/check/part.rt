//! One part of a log.
ghost use Rattle.reo_refute_base.specs.declared.line.LogLine.TheVariants.{At as AtPlace};
ghost use Rattle.std.specs.Prelude.{◌≢◌, true, false, ◌≡◌, ◌<◌, ℕ, List, OnOk, length};
ghost use Rattle.reo_net_base.specs.Net.{net_of};
ghost use Rattle.reo_refute_live.specs.Judged.{IsJudged, allowed_in};
ghost use Rattle.reo_refute_live.specs.OpenBranch.{IsClosed};
ghost use Rattle.reo_refute.specs.check.Judging.{IsPartTaken};
ghost use Rattle.reo_refute.specs.check.Reading.{IsShort, IsAtTaken};

use crate::check::lines::Lines;
use crate::check::step::step;
use crate::check::stop::LogStop;
use reo_net_base::Primitive;
use reo_refute_base::LogLine;
use reo_refute_live::{Judged, OpenBranch};
use std::alloc::Global;

/// Whether a line begins the part of a place.
fn is_at(line: LogLine, number: usize) -> bool
    ensures yes { result ≡ true → line ≡ AtPlace number }
    ensures no { result ≡ false → line ≢ AtPlace number }
{
    match line {
        LogLine::At(place) => place == number,
        LogLine::Drop(_, _, _) => false,
        LogLine::Empty(_) => false,
        LogLine::Split(_) => false,
    }
}

/// Takes the line that begins the part of a place.
pub(crate) fn take_at(lines: &mut Lines, number: usize) -> Result<(), LogStop>
    requires { IsShort lines.old }
    ensures { IsAtTaken number lines.old lines.new result }
{
    match lines.next() {
        None => Err(lines.wrong()),
        Some(line) => {
            if is_at(line, number) {
                Ok(())
            } else {
                Err(lines.wrong())
            }
        }
    }
}

/// Takes the lines of a branch in which all values are live first, and those of the branches of its
/// splits, to the last of them.
pub(crate) fn check_part<P: Primitive>(
    alloc: Global,
    judged: &Judged<'_, P>,
    live: &mut OpenBranch,
    lines: &mut Lines,
    rows: &mut Vec<u8>,
) -> Result<(), LogStop>
    requires judged { IsJudged (net_of P.behaviour judged.now.circuit.now) judged.now }
    requires closed { IsClosed judged.now.lists.now live.old }
    requires short { IsShort lines.old }
    ensures part { let net = net_of P.behaviour judged.now.circuit.now in
        IsPartTaken net judged.now.lists.now (allowed_in net judged.now) lines.old lines.new
        result }
    ensures closed { OnOk result (IsClosed judged.now.lists.now live.new) }
{
    live.restart(judged.lists);
    let mut open = true;
    while open {
        match step(alloc, judged, live, lines, rows) {
            Ok(more) => open = more,
            Err(stop) => return Err(stop),
        }
    }
    Ok(())
}
