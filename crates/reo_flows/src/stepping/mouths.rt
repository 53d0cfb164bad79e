//! Items at mouths.
ghost use Rattle.std.specs.Prelude.{◌≡◌, ◌<◌, None, length, set};
ghost use Rattle.reo_net_base.specs.Net.{net_of, behaviour_at};
ghost use Rattle.reo_net_base.specs.Step.{mouth_of, taken_for};
ghost use Rattle.reo_net_circuit.specs.found_ends.Ends.{AreEnds};

use reo_net_base::{End, Primitive};
use reo_net_circuit::{Circuit, Ends};
use reo_values::{List, Value};

/// The joint at the mouth of a primitive with two sides.
fn mouth_of<P: Primitive>(circuit: &Circuit<P>, ends: &Ends, index: usize) -> usize
    requires ends { AreEnds (net_of P.behaviour circuit.now) ends.now }
    requires index { index < length circuit.now.primitives }
    requires two { let net = net_of P.behaviour circuit.now in
        (behaviour_at net.primitives index).sides ≡ 2 }
    ensures mouth { result ≡ mouth_of (net_of P.behaviour circuit.now) index }
    ensures in_range { result < length circuit.now.joints }
{
    circuit.known();
    let end = if circuit.primitive(index).side_of(0) == 0 {
        0
    } else {
        1
    };
    ends.joint_at(End {
        primitive: index,
        end,
    })
}

/// Takes the item at the mouth of a primitive with two sides out, if there is one.
#[inline(always)]
pub(crate) fn take_at_mouth<P: Primitive>(
    circuit: &Circuit<P>,
    ends: &Ends,
    items: &mut List<Option<Value>>,
    index: usize,
) -> Option<Value>
    requires ends { AreEnds (net_of P.behaviour circuit.now) ends.now }
    requires index { index < length circuit.now.primitives }
    requires two { let net = net_of P.behaviour circuit.now in
        (behaviour_at net.primitives index).sides ≡ 2 }
    requires items { length items.old ≡ length circuit.now.joints }
    ensures item { result ≡ taken_for (net_of P.behaviour circuit.now) items.old index }
    ensures rest { let mouth = mouth_of (net_of P.behaviour circuit.now) index in
        items.new ≡ set items.old mouth None }
{
    circuit.known();
    let mouth = mouth_of(circuit, ends, index);
    items.at_mut(mouth).take()
}
