//! Items that come in at ends.
ghost use Rattle.std.specs.Prelude.{◌≡◌, ◌<◌, length, option_copied};
ghost use Rattle.reo_net_base.specs.Ends.{IsTaker};
ghost use Rattle.reo_net_base.specs.Net.{net_of, end_eq};
ghost use Rattle.reo_net_base.specs.Colouring.{taken_at};
ghost use Rattle.reo_net_circuit.specs.found_ends.Ends.{AreEnds};

use reo_net_base::{End, Joint, Primitive};
use reo_net_circuit::{Circuit, Ends};
use reo_values::Value;

/// Whether two ends are one.
fn same_end(a: End, b: End) -> bool
    ensures { result ≡ end_eq a b }
{
    a.primitive == b.primitive && a.end == b.end
}

/// The item at the joint that goes to an end, if there is one.
pub(crate) fn taken<'a>(joints: &[Joint], items: &'a [Option<Value>], end: End) -> Option<&'a Value>
    requires { length items.now ≡ length joints.now }
    ensures { option_copied result ≡ taken_at joints.now items.entry.now end }
{
    for index in 0..joints.len() {
        if same_end(joints[index].taker, end) {
            return items[index].as_ref();
        }
    }
    None
}

/// The item at the joint of an end that takes in, if there is one: no joint is searched for.
pub(crate) fn taken_by<'a, P: Primitive>(
    circuit: &Circuit<P>,
    ends: &Ends,
    items: &'a [Option<Value>],
    end: End,
) -> Option<&'a Value>
    requires ends { AreEnds (net_of P.behaviour circuit.now) ends.now }
    requires items { length items.now ≡ length circuit.now.joints }
    requires end { IsTaker (net_of P.behaviour circuit.now) end }
    ensures { option_copied result ≡ taken_at circuit.now.joints items.entry.now end }
{
    circuit.known();
    items[ends.joint_at(end)].as_ref()
}
