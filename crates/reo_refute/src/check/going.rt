//! Whether a value may go.
ghost use Rattle.std.specs.Prelude.{◌≡◌, ◌↔◌, ◌<◌, ℕ, List, IfOk, IsTrue, true, length};
ghost use Rattle.reo_net_base.specs.Net.{net_of};
ghost use Rattle.reo_joint_values.specs.Values.{AtSide};
ghost use Rattle.reo_refute_base.specs.Logs.{MayGo};
ghost use Rattle.reo_refute_live.specs.Judged.{IsJudged, allowed_in};
ghost use Rattle.reo_refute_live.specs.support.Families.{family_of};
ghost use Rattle.reo_refute_live.specs.OpenBranch.{IsOpen};

use reo_joint_values::JointValue;
use reo_net_base::Primitive;
use reo_net_circuit::Circuit;
use reo_refute_live::{Judged, OpenBranch, has_support};
use reo_values::NoMemory;

/// Whether a side is at a joint.
fn is_at_side<P: Primitive>(circuit: &Circuit<P>, joint: usize, side: usize) -> bool
    requires { joint < length circuit.now.joints }
    ensures { IsTrue result ↔ AtSide (net_of P.behaviour circuit.now) joint side }
{
    circuit.known();
    let ends = circuit.joint(joint);
    circuit.side_of(ends.giver) == side || circuit.side_of(ends.taker) == side
}

/// Whether a live value at a joint has no support at a side of it, by the rows that are allowed at
/// a place. `NoMemory` is out of memory.
pub(crate) fn lacks_support<P: Primitive>(
    judged: &Judged<'_, P>,
    live: &OpenBranch,
    joint: usize,
    value: JointValue,
    side: usize,
    rows: &mut Vec<u8>,
) -> Result<bool, NoMemory>
    requires judged { IsJudged (net_of P.behaviour judged.now.circuit.now) judged.now }
    requires open { IsOpen judged.now.lists.now live.now }
    requires joint { joint < length judged.now.circuit.now.joints }
    requires at { AtSide (net_of P.behaviour judged.now.circuit.now) joint side }
    requires is_live { family_of live.now.table joint value ≡ true }
    ensures { let net = net_of P.behaviour judged.now.circuit.now in
        IfOk result (λ lacks. IsTrue lacks ↔ MayGo net judged.now.lists.now
        (allowed_in net judged.now) (family_of live.now.table) joint value side) }
{
    let supported = has_support(judged, live.table(), joint, value, side, rows)?;
    Ok(!supported)
}

/// Whether a value may go by a line of a log: it is live at a joint, the side is at the joint, and
/// it has no support there. The numbers may be any. `NoMemory` is out of memory.
pub(crate) fn may_go<P: Primitive>(
    judged: &Judged<'_, P>,
    live: &OpenBranch,
    joint: usize,
    value: JointValue,
    side: usize,
    rows: &mut Vec<u8>,
) -> Result<bool, NoMemory>
    requires judged { IsJudged (net_of P.behaviour judged.now.circuit.now) judged.now }
    requires open { IsOpen judged.now.lists.now live.now }
    ensures { let net = net_of P.behaviour judged.now.circuit.now in
        IfOk result (λ goes. IsTrue goes ↔ MayGo net judged.now.lists.now
        (allowed_in net judged.now) (family_of live.now.table) joint value side) }
{
    if joint >= judged.circuit.joint_count() || !live.is_live(judged.lists, joint, value) {
        return Ok(false);
    }
    if !is_at_side(judged.circuit, joint, side) {
        return Ok(false);
    }
    lacks_support(judged, live, joint, value, side, rows)
}
