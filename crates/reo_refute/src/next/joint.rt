//! What goes on at one joint.
ghost use Rattle.std.specs.Prelude.{◌≡◌, ◌<◌, ℕ, List, IfOk, MatchOption, Contains, length};
ghost use Rattle.reo_net_base.specs.Net.{net_of};
ghost use Rattle.reo_joint_values.specs.Values.{AtSide};
ghost use Rattle.reo_refute_base.specs.Live.{live_at};
ghost use Rattle.reo_refute_base.specs.Logs.{MayGo};
ghost use Rattle.reo_refute_live.specs.Judged.{IsJudged, allowed_in};
ghost use Rattle.reo_refute_live.specs.support.Families.{family_of};
ghost use Rattle.reo_refute_live.specs.OpenBranch.{IsOpen};
ghost use Rattle.reo_refute.specs.next.Next.{AreSupported, IsKept, LeadsOn};

use crate::next::going::may_go;
use crate::next::values::{value_at, value_count};
use reo_joint_values::JointValue;
use reo_net_base::Primitive;
use reo_refute_base::LogLine;
use reo_refute_live::{Judged, OpenBranch};
use reo_values::NoMemory;

/// The first value of a joint, of those from a place on, that may go at a side of it, if there is
/// one. `NoMemory` is out of memory.
fn goes_at<P: Primitive>(
    judged: &Judged<'_, P>,
    live: &OpenBranch,
    joint: usize,
    side: usize,
    from: usize,
    rows: &mut Vec<u8>,
) -> Result<Option<JointValue>, NoMemory>
    requires judged { IsJudged (net_of P.behaviour judged.now.circuit.now) judged.now }
    requires open { IsOpen judged.now.lists.now live.now }
    requires joint { joint < length judged.now.circuit.now.joints }
    requires at { AtSide (net_of P.behaviour judged.now.circuit.now) joint side }
    ensures { let net = net_of P.behaviour judged.now.circuit.now in
        let family = family_of live.now.table in
        IfOk result (λ found. MatchOption found (from ≡ 0
        → AreSupported net judged.now.lists.now (allowed_in net judged.now) family joint side)
        (λ v. MayGo net judged.now.lists.now (allowed_in net judged.now) family joint v side
        × Contains (live_at judged.now.lists.now family joint) v)) }
{
    for place in from..value_count(judged.lists, joint) {
        let value = value_at(judged.lists, joint, place);
        if may_go(judged, live, joint, value, side, rows)? {
            return Ok(Some(value));
        }
    }
    Ok(None)
}

/// The line of the first value of a joint, of those from a place on, that may go at a side of it,
/// if there is one. `NoMemory` is out of memory.
pub(crate) fn line_at_side<P: Primitive>(
    judged: &Judged<'_, P>,
    live: &OpenBranch,
    joint: usize,
    side: usize,
    from: usize,
    rows: &mut Vec<u8>,
) -> Result<Option<LogLine>, NoMemory>
    requires judged { IsJudged (net_of P.behaviour judged.now.circuit.now) judged.now }
    requires open { IsOpen judged.now.lists.now live.now }
    requires joint { joint < length judged.now.circuit.now.joints }
    requires at { AtSide (net_of P.behaviour judged.now.circuit.now) joint side }
    ensures { let net = net_of P.behaviour judged.now.circuit.now in
        let family = family_of live.now.table in
        IfOk result (λ found. MatchOption found (from ≡ 0
        → AreSupported net judged.now.lists.now (allowed_in net judged.now) family joint side)
        (LeadsOn net judged.now.lists.now (allowed_in net judged.now) family)) }
{
    match goes_at(judged, live, joint, side, from, rows)? {
        Some(value) => Ok(Some(LogLine::Drop(joint, value, side))),
        None => Ok(None),
    }
}

/// The line of a joint at which no value is live, or one may go, if it is such. `NoMemory` is out
/// of memory.
pub(crate) fn line_at<P: Primitive>(
    judged: &Judged<'_, P>,
    live: &OpenBranch,
    joint: usize,
    rows: &mut Vec<u8>,
) -> Result<Option<LogLine>, NoMemory>
    requires judged { IsJudged (net_of P.behaviour judged.now.circuit.now) judged.now }
    requires open { IsOpen judged.now.lists.now live.now }
    requires joint { joint < length judged.now.circuit.now.joints }
    ensures { let net = net_of P.behaviour judged.now.circuit.now in
        let family = family_of live.now.table in
        IfOk result (λ found. MatchOption found
        (IsKept net judged.now.lists.now (allowed_in net judged.now) family joint)
        (LeadsOn net judged.now.lists.now (allowed_in net judged.now) family)) }
{
    judged.circuit.known();
    if !live.has_live(judged.lists, joint) {
        return Ok(Some(LogLine::Empty(joint)));
    }
    let ends = judged.circuit.joint(joint);
    let giver = judged.circuit.side_of(ends.giver);
    let taker = judged.circuit.side_of(ends.taker);
    match line_at_side(judged, live, joint, giver, 0, rows)? {
        Some(line) => Ok(Some(line)),
        None => {
            let found = line_at_side(judged, live, joint, taker, 0, rows)?;
            Ok(found)
        }
    }
}
