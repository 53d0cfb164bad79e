//! Whether a value may go.
ghost use Rattle.std.specs.Prelude.{◌≡◌, ◌<◌, ℕ, List, IfOk, true, false, length};
ghost use Rattle.reo_net_base.specs.Net.{net_of};
ghost use Rattle.reo_joint_values.specs.Values.{AtSide};
ghost use Rattle.reo_refute_base.specs.Items.{numbered};
ghost use Rattle.reo_refute_base.specs.Live.{HasSupport};
ghost use Rattle.reo_refute_base.specs.Logs.{MayGo};
ghost use Rattle.reo_refute_live.specs.Judged.{IsJudged, allowed_in};
ghost use Rattle.reo_refute_live.specs.support.Families.{family_of};
ghost use Rattle.reo_refute_live.specs.OpenBranch.{IsOpen};

use reo_joint_values::JointValue;
use reo_net_base::Primitive;
use reo_refute_live::{Judged, OpenBranch, has_support};
use reo_values::NoMemory;

/// Whether a live value at a joint has support at a side of it, by the rows that are allowed at a
/// place. `NoMemory` is out of memory.
fn is_supported<P: Primitive>(
    judged: &Judged<'_, P>,
    live: &OpenBranch,
    joint: usize,
    value: JointValue,
    side: usize,
    rows: &mut Vec<u8>,
) -> Result<bool, NoMemory>
    requires judged { IsJudged (net_of P.behaviour judged.now.circuit.now) judged.now }
    requires open { IsOpen judged.now.lists.now live.now }
    requires joint { joint < length judged.now.circuit.now.joints }
    requires at { AtSide (net_of P.behaviour judged.now.circuit.now) joint side }
    requires is_live { family_of live.now.table joint value ≡ true }
    ensures stays { let net = net_of P.behaviour judged.now.circuit.now in
        IfOk result (λ stays. stays ≡ true → HasSupport net (numbered judged.now.lists.now)
        (allowed_in net judged.now) (family_of live.now.table) side joint value) }
    ensures goes { let net = net_of P.behaviour judged.now.circuit.now in
        IfOk result (λ stays. stays ≡ false → MayGo net judged.now.lists.now
        (allowed_in net judged.now) (family_of live.now.table) joint value side) }
{
    let stays = has_support(judged, live.table(), joint, value, side, rows)?;
    Ok(stays)
}

/// Whether a value at a joint is live and has no support at a side of it, by the rows that are
/// allowed at a place. `NoMemory` is out of memory.
pub(crate) fn may_go<P: Primitive>(
    judged: &Judged<'_, P>,
    live: &OpenBranch,
    joint: usize,
    value: JointValue,
    side: usize,
    rows: &mut Vec<u8>,
) -> Result<bool, NoMemory>
    requires judged { IsJudged (net_of P.behaviour judged.now.circuit.now) judged.now }
    requires open { IsOpen judged.now.lists.now live.now }
    requires joint { joint < length judged.now.circuit.now.joints }
    requires at { AtSide (net_of P.behaviour judged.now.circuit.now) joint side }
    ensures goes { let net = net_of P.behaviour judged.now.circuit.now in
        IfOk result (λ goes. goes ≡ true → MayGo net judged.now.lists.now
        (allowed_in net judged.now) (family_of live.now.table) joint value side) }
    ensures stays { let net = net_of P.behaviour judged.now.circuit.now in
        IfOk result (λ goes. goes ≡ false → family_of live.now.table joint value ≡ true
        → HasSupport net (numbered judged.now.lists.now) (allowed_in net judged.now)
        (family_of live.now.table) side joint value) }
{
    if !live.is_live(judged.lists, joint, value) {
        return Ok(false);
    }
    let stays = is_supported(judged, live, joint, value, side, rows)?;
    Ok(!stays)
}
