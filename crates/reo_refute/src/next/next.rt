//! The next line of a branch.
ghost use Rattle.std.specs.Prelude.{◌≡◌, ◌≢◌, ◌<◌, ◌≤◌, ◌^◌, ℕ, List, [], IfOk, MatchOption, length};
ghost use Rattle.reo_net_base.specs.Net.{net_of};
ghost use Rattle.reo_refute_base.specs.Live.{live_at};
ghost use Rattle.reo_refute_base.specs.measure.Owed.{AreTwo};
ghost use Rattle.reo_refute_live.specs.Judged.{IsJudged, allowed_in};
ghost use Rattle.reo_refute_live.specs.support.Families.{family_of};
ghost use Rattle.reo_refute_live.specs.OpenBranch.{IsOpen, AreSmall};
ghost use Rattle.reo_refute.specs.next.Next.{HasOne, IsKept, IsNextLine, LeadsOn};

use crate::next::joint::line_at;
use crate::next::looking::has_two;
use reo_net_base::Primitive;
use reo_refute_base::LogLine;
use reo_refute_live::{Judged, OpenBranch};
use reo_values::{List, NoMemory, Value};

/// The line of the first joint, of so many, at which no value is live, or one may go, if there is
/// such a joint.
fn kept_or_line<P: Primitive>(
    judged: &Judged<'_, P>,
    live: &OpenBranch,
    to: usize,
    rows: &mut Vec<u8>,
) -> Result<Option<LogLine>, NoMemory>
    requires judged { IsJudged (net_of P.behaviour judged.now.circuit.now) judged.now }
    requires open { IsOpen judged.now.lists.now live.now }
    requires to { to ≤ length judged.now.circuit.now.joints }
    ensures { let net = net_of P.behaviour judged.now.circuit.now in
        let family = family_of live.now.table in
        IfOk result (λ found. MatchOption found
        ((j : ℕ) → j < to
        → IsKept net judged.now.lists.now (allowed_in net judged.now) family j)
        (LeadsOn net judged.now.lists.now (allowed_in net judged.now) family)) }
{
    for joint in 0..to {
        match line_at(judged, live, joint, rows)? {
            Some(line) => return Ok(Some(line)),
            None => {}
        }
    }
    Ok(None)
}

/// The first joint at which two values are live, if there is one.
fn first_double(lists: &[List<Value>], live: &OpenBranch) -> Option<usize>
    requires open { IsOpen lists.now live.now }
    requires small { AreSmall lists.now }
    ensures { let family = family_of live.now.table in MatchOption result
        ((j : ℕ) → j < length lists.now → live_at lists.now family j ≢ []
        → HasOne lists.now family j)
        (λ j. (j < length lists.now) × AreTwo lists.now family j) }
{
    for joint in 0..lists.len() {
        if has_two(lists, live, joint) {
            return Some(joint);
        }
    }
    None
}

/// The next line of a branch at a place: `Drop` of a live value that has no support, or `Empty` of
/// a joint at which no value is live, or `Split` of one at which two are; or `None` where at each
/// joint one value is live, with support at both its sides. What the buffer held does not matter.
/// `NoMemory` is out of memory.
pub(crate) fn next_line<P: Primitive>(
    judged: &Judged<'_, P>,
    live: &OpenBranch,
    rows: &mut Vec<u8>,
) -> Result<Option<LogLine>, NoMemory>
    requires judged { IsJudged (net_of P.behaviour judged.now.circuit.now) judged.now }
    requires open { IsOpen judged.now.lists.now live.now }
    ensures { let net = net_of P.behaviour judged.now.circuit.now in
        IfOk result (IsNextLine net judged.now.lists.now (allowed_in net judged.now)
        (family_of live.now.table)) }
{
    let count = judged.circuit.joint_count();
    match kept_or_line(judged, live, count, rows)? {
        Some(line) => Ok(Some(line)),
        None => match first_double(judged.lists, live) {
            Some(joint) => Ok(Some(LogLine::Split(joint))),
            None => Ok(None),
        },
    }
}
