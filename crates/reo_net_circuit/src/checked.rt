//! The tables of a circuit, or the first fault of its parts.
ghost use Rattle.std.specs.Prelude.{◌≡◌, ◌<◌, ◌^◌, MatchResult, map, length};
ghost use Rattle.reo_net_base.specs.Net.{net_of};
ghost use Rattle.reo_net_base.specs.Wired.{IsOrder, ArePorts};
ghost use Rattle.reo_net_circuit.specs.Parts.{wiring_of, AreJoints};
ghost use Rattle.reo_net_circuit.specs.Layout.{IsLaidOut};
ghost use Rattle.reo_net_circuit.specs.Fault.{AllJoined, AllRight, IsNetFault};
ghost use Rattle.reo_net_circuit.specs.Circuit.{IsCircuit};

use crate::ends::ends_fault;
use crate::fault::NetFault;
use crate::layout::{Layout, SideOwner, lay_out};
use crate::tables::{mouth_table, port_table};
use crate::turn::joint_order;
use crate::way::way_fault;
use reo_net_base::{Joint, Primitive, Sorted, order_has_no_cycle};
use reo_values::List;
use std::alloc::Global;

/// What a circuit finds its sides and joints by.
#[derive(Drop)]
pub struct CircuitTables {
    /// The first side of each primitive.
    pub firsts: List<usize>,
    /// The primitive of each side.
    pub owners: List<SideOwner>,
    /// The joints, none before those that feed it.
    pub order: List<usize>,
    /// The joint at the mouth of each primitive.
    pub mouths: List<usize>,
    /// The joint at the end 0 of each primitive.
    pub port_joints: List<usize>,
}

/// Looks for an end that is not in one joint, and then for a joint that goes the wrong way.
fn check_ends<P: Primitive>(
    alloc: Global,
    primitives: &[P],
    joints: &[Joint],
) -> Result<(), NetFault>
    requires few { length joints.now < 2 ^ 31 }
    requires joints { AreJoints (net_of P.behaviour (wiring_of primitives.now 0 joints.now)) }
    ensures { let net = net_of P.behaviour (wiring_of primitives.now 0 joints.now) in
        MatchResult result (λ _. AllJoined net × AllRight net) (IsNetFault net) }
{
    if let Some(primitive) = ends_fault(alloc, primitives, joints)? {
        return Err(NetFault::Ends { primitive });
    }
    if let Some(joint) = way_fault(primitives, joints) {
        return Err(NetFault::Way { joint });
    }
    Ok(())
}

/// An order of the joints, if they make no directed cycle.
fn ordered<P: Primitive>(
    alloc: Global,
    primitives: &[P],
    layout: &Layout,
    joints: &[Joint],
) -> Result<List<usize>, NetFault>
    requires joints { AreJoints (net_of P.behaviour (wiring_of primitives.now 0 joints.now)) }
    requires layout { IsLaidOut
        (map P.behaviour primitives.now) layout.now.firsts layout.now.owners }
    requires joined { AllJoined (net_of P.behaviour (wiring_of primitives.now 0 joints.now)) }
    requires right { AllRight (net_of P.behaviour (wiring_of primitives.now 0 joints.now)) }
    ensures { let net = net_of P.behaviour (wiring_of primitives.now 0 joints.now) in
        MatchResult result (λ order. IsOrder net order) (IsNetFault net) }
{
    let firsts = layout.firsts.as_slice();
    let sorted = joint_order(alloc, primitives, firsts, layout.owners.len(), joints)?;
    match sorted {
        Sorted::Cycle(joint) => Err(NetFault::Cycle { joint }),
        Sorted::Order(order) => Ok(List::from_vec(order)),
    }
}

/// The tables of a circuit of these parts, or their first fault.
pub fn tables_of<P: Primitive>(
    alloc: Global,
    primitives: &[P],
    ports: usize,
    joints: &[Joint],
) -> Result<CircuitTables, NetFault>
    requires few_primitives { length primitives.now < 2 ^ 31 }
    requires few_joints { length joints.now < 2 ^ 31 }
    requires ports { ArePorts (map P.behaviour primitives.now) ports }
    requires joints { AreJoints (net_of P.behaviour (wiring_of primitives.now 0 joints.now)) }
    ensures { let wiring = wiring_of primitives.now ports joints.now in
        MatchResult result (IsCircuit P.behaviour wiring) (IsNetFault (net_of P.behaviour wiring)) }
{
    let _ = ports;
    check_ends(alloc, primitives, joints)?;
    let layout = lay_out(alloc, primitives)?;
    let order = ordered(alloc, primitives, &layout, joints)?;
    let mouths = mouth_table(alloc, primitives, joints)?;
    let port_joints = port_table(alloc, primitives, joints)?;
    order_has_no_cycle();
    let Layout { firsts, owners } = layout;
    Ok(CircuitTables {
        firsts,
        owners,
        order,
        mouths,
        port_joints,
    })
}
