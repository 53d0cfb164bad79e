//! What a row gives and lets in at the joints of its side.
ghost use Rattle.std.specs.Prelude.{◌≡◌, ◌↔◌, ◌<◌, IsTrue, Some, length, option_copied};
ghost use Rattle.reo_net_base.specs.declared.mark.Mark.TheVariants.{F};
ghost use Rattle.reo_net_base.specs.Net.{net_of};
ghost use Rattle.reo_net_laws.specs.Ends.{mark_in, from_in, IsRowOf};
ghost use Rattle.reo_joint_values.specs.Values.{joint_of, giver_side, taker_side};
ghost use Rattle.reo_joint_values.specs.Fitting.{given_for, passes_in};
ghost use Rattle.reo_joint_values.specs.Works.{Follows};
ghost use Rattle.reo_side_tables.specs.Marks.{GivesFlow};

use reo_net_base::Primitive;
use reo_net_circuit::Circuit;
use reo_values::Value;

/// The end whose item decides what a row gives with flow at a joint.
#[tactic(auto, unfolding(reo_net_laws::specs::Ends::from_in, reo_net_laws::specs::Ends::mark_in))]
pub fn source_of<P: Primitive>(
    circuit: &Circuit<P>,
    side: usize,
    row: usize,
    joint: usize,
) -> Option<usize>
    requires joint { joint < length circuit.now.joints }
    requires at { giver_side (net_of P.behaviour circuit.now) joint ≡ side }
    requires row { IsRowOf (net_of P.behaviour circuit.now) side row }
    requires flows { let net = net_of P.behaviour circuit.now in
        mark_in net row (joint_of net joint).giver ≡ F }
    ensures { let net = net_of P.behaviour circuit.now in
        result ≡ from_in net row (joint_of net joint).giver }
{
    circuit.known();
    let _ = side;
    let end = circuit.joint(joint).giver;
    let primitive = circuit.primitive(end.primitive);
    primitive.from(primitive.side_of(end.end), row, end.end)
}

/// Whether a row lets an item in at a joint.
#[tactic(auto, unfolding(reo_joint_values::specs::Fitting::passes_in))]
pub fn lets_in<P: Primitive>(
    circuit: &Circuit<P>,
    side: usize,
    row: usize,
    joint: usize,
    item: &Value,
) -> bool
    requires joint { joint < length circuit.now.joints }
    requires at { taker_side (net_of P.behaviour circuit.now) joint ≡ side }
    requires row { IsRowOf (net_of P.behaviour circuit.now) side row }
    ensures { let net = net_of P.behaviour circuit.now in
        result ≡ passes_in net row (joint_of net joint).taker item.now }
{
    circuit.known();
    let _ = side;
    let end = circuit.joint(joint).taker;
    let primitive = circuit.primitive(end.primitive);
    primitive.passes(primitive.side_of(end.end), row, end.end, item)
}

/// Whether an item is what a row gives with flow at a joint for what it takes.
#[tactic(auto, unfolding(crate::specs::Ends::given_for, crate::specs::Ends::mark_in))]
pub fn gives_item<P: Primitive>(
    circuit: &Circuit<P>,
    side: usize,
    row: usize,
    joint: usize,
    taken: Option<&Value>,
    item: &Value,
) -> bool
    requires joint { joint < length circuit.now.joints }
    requires at { giver_side (net_of P.behaviour circuit.now) joint ≡ side }
    requires row { IsRowOf (net_of P.behaviour circuit.now) side row }
    requires flows { let net = net_of P.behaviour circuit.now in
        mark_in net row (joint_of net joint).giver ≡ F }
    ensures { let net = net_of P.behaviour circuit.now in
        IsTrue result ↔ (given_for net row (joint_of net joint).giver
        (option_copied taken.entry) ≡ Some item.now) }
{
    circuit.known();
    let _ = side;
    let end = circuit.joint(joint).giver;
    let primitive = circuit.primitive(end.primitive);
    primitive.agrees(primitive.side_of(end.end), row, end.end, taken, item)
}

/// Whether what a row gives with flow at the one joint hangs on what it takes in at the other.
pub fn follows<P: Primitive>(
    circuit: &Circuit<P>,
    side: usize,
    row: usize,
    joint: usize,
    source: usize,
) -> bool
    requires row { IsRowOf (net_of P.behaviour circuit.now) side row }
    requires gives { GivesFlow (net_of P.behaviour circuit.now) side row joint }
    requires source { source < length circuit.now.joints }
    requires at { taker_side (net_of P.behaviour circuit.now) source ≡ side }
    ensures { IsTrue result ↔ Follows (net_of P.behaviour circuit.now) row joint source }
{
    let taker = circuit.joint(source).taker;
    circuit.joint(joint).giver.primitive == taker.primitive
        && source_of(circuit, side, row, joint) == Some(taker.end)
}
