//! The joints that flow.
ghost use Rattle.std.specs.Prelude.{◌≡◌, ◌<◌, ◌++◌, ◌∷◌, [], ℕ, Bool, cond, OnOk, length};
ghost use Rattle.reo_net_base.specs.Net.{mark_at, net_of, row_at, row_count, side_of_end};
ghost use Rattle.reo_net_base.specs.Sides.{side_count};
ghost use Rattle.reo_joint_values.specs.Standing.{giver_of};
ghost use Rattle.reo_flows.specs.flowing.Flowing.{AreJointsIn, AreRowsIn, flowing_of, flows_by};

use reo_net_base::Primitive;
use reo_net_circuit::Circuit;
use reo_values::{List, NoMemory};

/// Whether a joint flows by the row of its giver's side.
#[tactic(auto, unfolding(reo_net_base::specs::Net::mark_at, reo_net_base::specs::Net::row_at))]
fn flows<P: Primitive>(circuit: &Circuit<P>, rows: &[u32], joint: usize) -> bool
    requires one_row { length rows.now ≡ side_count (net_of P.behaviour circuit.now) }
    requires joint { joint < length circuit.now.joints }
    requires in_table { let net = net_of P.behaviour circuit.now in
        let giver = giver_of net joint in
        row_at net rows.now giver < row_count (side_of_end net giver) }
    ensures { result ≡ flows_by (net_of P.behaviour circuit.now) rows.now joint }
{
    circuit.known();
    let giver = circuit.joint(joint).giver;
    let row = rows[circuit.side_of(giver)] as usize;
    let primitive = circuit.primitive(giver.primitive);
    let side = primitive.side_of(giver.end);
    primitive.mark(side, row, giver.end).is_flow()
}

/// Adds a joint, if it flows.
fn add_flowing<P: Primitive>(
    circuit: &Circuit<P>,
    rows: &[u32],
    joint: usize,
    list: &mut List<usize>,
) -> Result<(), NoMemory>
    requires one_row { length rows.now ≡ side_count (net_of P.behaviour circuit.now) }
    requires joint { joint < length circuit.now.joints }
    requires in_table { let net = net_of P.behaviour circuit.now in
        let giver = giver_of net joint in
        row_at net rows.now giver < row_count (side_of_end net giver) }
    ensures { let net = net_of P.behaviour circuit.now in
        let more = cond (flows_by net rows.now joint) (joint ∷ []) [] in
        OnOk result (list.new ≡ list.old ++ more) }
{
    if flows(circuit, rows, joint) {
        list.push(joint)?;
    }
    Ok(())
}

/// Writes those of some joints of a set of sides that flow over what a list has, in their order.
/// The rows of other sides may be any. `NoMemory` is out of memory.
pub fn put_flowing<P: Primitive>(
    circuit: &Circuit<P>,
    rows: &[u32],
    joints: &[usize],
    list: &mut List<usize>,
) -> Result<(), NoMemory>
    requires { let net = net_of P.behaviour circuit.now in (inside : ℕ → Bool)
        × AreRowsIn net inside rows.now × AreJointsIn net inside joints.now }
    ensures { let net = net_of P.behaviour circuit.now in
        OnOk result (list.new ≡ flowing_of net rows.now joints.now) }
{
    circuit.known();
    list.clear();
    for index in 0..joints.len() {
        add_flowing(circuit, rows, joints[index], list)?;
    }
    Ok(())
}
