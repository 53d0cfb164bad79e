//! Whether what a row takes in and gives with flow can stand.
ghost use Rattle.std.specs.Prelude.{◌≡◌, ◌↔◌, ◌<◌, ◌-◌, ◌≤◌, IsTrue, Some, None, true, length, option_copied, slice_index_or, []};
ghost use Rattle.reo_net_base.specs.Net.{net_of};
ghost use Rattle.reo_joint_values.specs.declared.value.JointValue.TheVariants.{Flow as WithFlow};
ghost use Rattle.reo_joint_values.specs.Works.{IsGivenIn, TakerWorks, TakerHas};
ghost use Rattle.reo_rows.specs.RowFlags.{flag};
ghost use Rattle.reo_rows.specs.Stands.{FlowsStand};
ghost use Rattle.reo_rows.specs.Flowing.{IsFlowing, TakesThere, GivesThere, names_in, family_in};
ghost use Rattle.reo_rows.specs.Flows.{IsPassedOn};

use crate::flowing::Flowing;
use crate::items::gives_value;
use crate::marks::FLOWS;
use reo_net_base::Primitive;
use reo_side_tables::{follows, lets_in, source_of};
use reo_values::Value;

/// Whether a joint has the item that a row gives there with flow for what it takes.
fn is_flow_given<P: Primitive>(
    flowing: &Flowing<'_, P>,
    joint: usize,
    taken: Option<&Value>,
) -> bool
    requires flowing { IsFlowing (net_of P.behaviour flowing.now.basis.now.circuit.now)
        flowing.now }
    requires gives { let net = net_of P.behaviour flowing.now.basis.now.circuit.now in
        GivesThere net flowing.now joint }
    ensures { let net = net_of P.behaviour flowing.now.basis.now.circuit.now in
        IsTrue result ↔ IsGivenIn net (names_in flowing.now) (family_in flowing.now)
        flowing.now.row joint (option_copied taken.entry) }
{
    for code in FLOWS..flowing.alive.width(joint) {
        if flowing.alive.is_set(joint, code) && gives_value(flowing, joint, taken, code) {
            return true;
        }
    }
    false
}

/// Whether each joint has what a row gives there for an item that it takes in at a joint.
fn is_passed_on<P: Primitive>(flowing: &Flowing<'_, P>, joint: usize, item: &Value) -> bool
    requires flowing { IsFlowing (net_of P.behaviour flowing.now.basis.now.circuit.now)
        flowing.now }
    requires takes { let net = net_of P.behaviour flowing.now.basis.now.circuit.now in
        TakesThere net flowing.now joint }
    ensures { let net = net_of P.behaviour flowing.now.basis.now.circuit.now in
        IsTrue result ↔ IsPassedOn net (names_in flowing.now) (family_in flowing.now)
        flowing.now.side flowing.now.row joint (Some item.now) }
{
    for index in 0..flowing.flow.giving.len() {
        let other = *flowing.flow.giving.at(index);
        if follows(
            flowing.basis.circuit,
            flowing.side,
            flowing.row,
            other,
            joint,
        ) && !is_flow_given(flowing, other, Some(item))
        {
            return false;
        }
    }
    true
}

/// Whether an item, by its place, may be taken in with flow at a joint, and what is given for it
/// may stand.
pub(crate) fn flow_works<P: Primitive>(flowing: &Flowing<'_, P>, joint: usize, code: usize) -> bool
    requires flowing { IsFlowing (net_of P.behaviour flowing.now.basis.now.circuit.now)
        flowing.now }
    requires takes { let net = net_of P.behaviour flowing.now.basis.now.circuit.now in
        TakesThere net flowing.now joint }
    requires flows { 4 ≤ code }
    requires code { code < length (slice_index_or flowing.now.alive.now joint []) }
    requires has { flag flowing.now.alive.now joint code ≡ true }
    ensures { let net = net_of P.behaviour flowing.now.basis.now.circuit.now in
        IsTrue result ↔ TakerWorks net (names_in flowing.now) (family_in flowing.now)
        flowing.now.side flowing.now.row joint (WithFlow (code - 4)) }
{
    let item = flowing.basis.items[joint].at(code - FLOWS);
    lets_in(
        flowing.basis.circuit,
        flowing.side,
        flowing.row,
        joint,
        item,
    ) && is_passed_on(flowing, joint, item)
}

/// Whether some item may be taken in with flow at a joint.
fn takes_flow<P: Primitive>(flowing: &Flowing<'_, P>, joint: usize) -> bool
    requires flowing { IsFlowing (net_of P.behaviour flowing.now.basis.now.circuit.now)
        flowing.now }
    requires takes { let net = net_of P.behaviour flowing.now.basis.now.circuit.now in
        TakesThere net flowing.now joint }
    ensures { let net = net_of P.behaviour flowing.now.basis.now.circuit.now in
        IsTrue result ↔ TakerHas net (names_in flowing.now) (family_in flowing.now)
        flowing.now.side flowing.now.row joint }
{
    for code in FLOWS..flowing.alive.width(joint) {
        if flowing.alive.is_set(joint, code) && flow_works(flowing, joint, code) {
            return true;
        }
    }
    false
}

/// Whether what a row takes in and gives with flow can stand.
pub(crate) fn flows_stand<P: Primitive>(flowing: &Flowing<'_, P>) -> bool
    requires flowing { IsFlowing (net_of P.behaviour flowing.now.basis.now.circuit.now)
        flowing.now }
    ensures { let net = net_of P.behaviour flowing.now.basis.now.circuit.now in
        IsTrue result ↔ FlowsStand net (names_in flowing.now) (family_in flowing.now)
        flowing.now.side flowing.now.row }
{
    for index in 0..flowing.flow.taking.len() {
        let joint = *flowing.flow.taking.at(index);
        if !takes_flow(flowing, joint) {
            return false;
        }
    }
    for index in 0..flowing.flow.giving.len() {
        let joint = *flowing.flow.giving.at(index);
        if source_of(flowing.basis.circuit, flowing.side, flowing.row, joint).is_none()
            && !is_flow_given(flowing, joint, None)
        {
            return false;
        }
    }
    true
}
