//! Marks of the primitives that may have changed.
ghost use Rattle.std.specs.Prelude.{◌≡◌, ◌<◌, true, length, set};
ghost use Rattle.reo_net_base.specs.Net.{net_of};
ghost use Rattle.reo_net_base.specs.Step.{change_at};
ghost use Rattle.reo_net_base.specs.Colouring.{IsColouring};
ghost use Rattle.reo_flows.specs.stepping.Changes.{AreThoseThatFlowed};

use reo_flags::Flags;
use reo_flows::mark_joint;
use reo_net_base::{Joint, Primitive};
use reo_net_circuit::Circuit;
use reo_values::Value;

/// Sets the mark of one primitive.
pub(crate) fn mark(marks: &mut Flags, index: usize)
    requires { index < length marks.old }
    ensures { marks.new ≡ change_at (λ _. true) marks.old index }
{
    marks.put(index, true);
}

/// Marks exactly the primitives of which some end flows.
pub(crate) fn mark_flowing<P: Primitive>(
    circuit: &Circuit<P>,
    rows: &[u32],
    items: &[Option<Value>],
    marks: &mut Flags,
)
    requires colouring { IsColouring (net_of P.behaviour circuit.now) rows.now items.now }
    requires one_each { length marks.old ≡ length circuit.now.primitives }
    ensures { AreThoseThatFlowed (net_of P.behaviour circuit.now) rows.now marks.new }
{
    let _ = rows;
    circuit.known();
    marks.clear();
    for index in 0..circuit.joint_count() {
        if items[index].is_some() {
            mark_joint(marks, circuit.joint(index));
        }
    }
}
