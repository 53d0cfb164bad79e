//! The marks of joints.
ghost use Rattle.std.specs.Prelude.{◌≡◌, IfOk};
ghost use Rattle.reo_net_base.specs.Colouring.{AreRows};
ghost use Rattle.reo_net_base.specs.Net.{all_sides, net_of};
ghost use Rattle.reo_kinds.specs.Kinds.{behaviour_of};
ghost use Rattle.reo_draw_rounds.specs.Marks.{marks_of, joint_marks};

use reo_drawing::JointMarks;
use reo_kinds::Kind;
use reo_net_circuit::Circuit;
use reo_values::{List, NoMemory};
use std::alloc::Global;

/// The marks of all joints, by the rows of all sides. `NoMemory` is out of memory.
pub(crate) fn marks_of(
    alloc: Global,
    circuit: &Circuit<Kind>,
    rows: &[u32],
) -> Result<List<JointMarks>, NoMemory>
    requires { AreRows (all_sides (net_of behaviour_of circuit.now).primitives) rows.now }
    ensures { IfOk result
        (λ made. made ≡ marks_of (net_of behaviour_of circuit.now) rows.now) }
{
    circuit.known();
    let mut made = List::new(alloc);
    for joint in circuit.joints() {
        let giver = circuit.mark_at(rows, joint.giver);
        let taker = circuit.mark_at(rows, joint.taker);
        made.push(JointMarks { giver, taker })?;
    }
    Ok(made)
}
