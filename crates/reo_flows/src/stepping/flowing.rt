//! Marks of the primitives of which some end flows.
ghost use Rattle.std.specs.Prelude.{◌≡◌, ◌<◌, true, length, set};
ghost use Rattle.reo_net_base.specs.Colouring.{RowsFit};
ghost use Rattle.reo_net_base.specs.Net.{net_of};
ghost use Rattle.reo_flows.specs.stepping.Changes.{AreThoseThatFlowed};
ghost use Rattle.reo_flows.specs.stepping.Flowing.{AreFlowing};

use reo_flags::Flags;
use reo_net_base::{Joint, Primitive};
use reo_net_circuit::Circuit;

/// Sets the marks of the primitives at both ends of a joint.
pub fn mark_joint(marks: &mut Flags, joint: Joint)
    requires giver { joint.giver.primitive < length marks.old }
    requires taker { joint.taker.primitive < length marks.old }
    ensures { let giver = set marks.old joint.giver.primitive true in
        marks.new ≡ set giver joint.taker.primitive true }
{
    marks.put(joint.giver.primitive, true);
    marks.put(joint.taker.primitive, true);
}

/// Marks exactly the primitives of which some end flows by these rows, where these are the joints
/// that flow. This takes no memory.
pub fn mark_flowing<P: Primitive>(
    circuit: &Circuit<P>,
    rows: &[u32],
    flowing: &[usize],
    marks: &mut Flags,
)
    requires rows { RowsFit (net_of P.behaviour circuit.now) rows.now }
    requires flowing { AreFlowing (net_of P.behaviour circuit.now) rows.now flowing.now }
    requires one_each { length marks.old ≡ length circuit.now.primitives }
    ensures { AreThoseThatFlowed (net_of P.behaviour circuit.now) rows.now marks.new }
{
    let _ = rows;
    circuit.known();
    marks.clear();
    for index in 0..flowing.len() {
        mark_joint(marks, circuit.joint(flowing[index]));
    }
}
