//! One line of a branch.
ghost use Rattle.std.specs.Prelude.{◌≡◌, ◌<◌, ℕ, List, IfOk, IsTrue, false, length};
ghost use Rattle.reo_net_base.specs.Net.{net_of};
ghost use Rattle.reo_refute_live.specs.Judged.{IsJudged, allowed_in};
ghost use Rattle.reo_refute_live.specs.OpenBranch.{IsOpen, IsClosed};
ghost use Rattle.reo_refute.specs.check.Judging.{IsStepTaken};
ghost use Rattle.reo_refute.specs.check.Reading.{IsShort};

use crate::check::going::may_go;
use crate::check::lines::Lines;
use crate::check::stop::LogStop;
use reo_net_base::Primitive;
use reo_refute_base::LogLine;
use reo_refute_live::{Judged, OpenBranch};
use std::alloc::Global;

/// Takes one line of a branch: whether a branch is open behind it.
pub(crate) fn step<P: Primitive>(
    alloc: Global,
    judged: &Judged<'_, P>,
    live: &mut OpenBranch,
    lines: &mut Lines,
    rows: &mut Vec<u8>,
) -> Result<bool, LogStop>
    requires judged { IsJudged (net_of P.behaviour judged.now.circuit.now) judged.now }
    requires open { IsOpen judged.now.lists.now live.old }
    requires short { IsShort lines.old }
    ensures step { let net = net_of P.behaviour judged.now.circuit.now in
        IsStepTaken net judged.now.lists.now (allowed_in net judged.now) live.old live.new lines.old
        lines.new result }
    ensures open { IfOk result (λ more. IsTrue more → IsOpen judged.now.lists.now live.new) }
    ensures closed { IfOk result (λ more. more ≡ false → IsClosed judged.now.lists.now live.new) }
{
    match lines.next() {
        Some(LogLine::Drop(joint, value, side)) => {
            if !may_go(judged, live, joint, value, side, rows)? {
                return Err(lines.wrong());
            }
            live.clear(judged.lists, joint, value)?;
            Ok(true)
        }
        Some(LogLine::Empty(joint)) => {
            if joint >= judged.circuit.joint_count() || live.has_live(judged.lists, joint) {
                return Err(lines.wrong());
            }
            let more = live.close(judged.lists)?;
            Ok(more)
        }
        Some(LogLine::Split(joint)) => {
            if joint >= judged.circuit.joint_count() || !live.has_live(judged.lists, joint) {
                return Err(lines.wrong());
            }
            live.split(alloc, judged.lists, joint)?;
            Ok(true)
        }
        Some(LogLine::At(_)) => Err(lines.wrong()),
        None => Err(lines.wrong()),
    }
}
