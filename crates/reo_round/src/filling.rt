//! The items at the joints of the parts in which something flows.
ghost use Rattle.std.specs.Prelude.{◌≡◌, ◌<◌, ℕ, true, OnOk, List as Items, Option, length, slice_index};
ghost use Rattle.reo_values.specs.declared.value.Value.{Value as Item};
ghost use Rattle.reo_net_base.specs.Colouring.{IsColouring};
ghost use Rattle.reo_net_base.specs.Net.{net_of};
ghost use Rattle.reo_net_base.specs.Sides.{AreRowsOf};
ghost use Rattle.reo_net_circuit.specs.found_ends.Ends.{AreEnds};
ghost use Rattle.reo_net_laws.specs.Knots.{AreKnots, in_knot, knot_count};
ghost use Rattle.reo_flows.specs.flowing.Flowing.{AreFlowingIn, AreFlowingOf};
ghost use Rattle.reo_flows.specs.stepping.Flowing.{GiverFlows};
ghost use Rattle.reo_round.specs.Feeds.{AreFeeds};
ghost use Rattle.reo_round.specs.Filling.{AreBlank, AreBlankOn, AreFilled, AreHeld, AreMoving, HaveColouring, IsPartFilled, IsPut};

use crate::feeds::Feeds;
use crate::giving::put_given;
use reo_flags::Flags;
use reo_knots::Knots;
use reo_net_base::Primitive;
use reo_net_circuit::{Circuit, Ends};
use reo_values::{List, NoMemory, Value};
use std::alloc::Global;

/// Puts the item at a joint that flows, and notes the joint.
fn put_item<P: Primitive>(
    alloc: Global,
    circuit: &Circuit<P>,
    ends: &Ends,
    feeds: &Feeds,
    rows: &[u32],
    joint: usize,
    items: &mut List<Option<Value>>,
    flowing: &mut List<usize>,
) -> Result<(), NoMemory>
    requires ends { AreEnds (net_of P.behaviour circuit.now) ends.now }
    requires feeds { AreFeeds (net_of P.behaviour circuit.now) feeds.now }
    requires rows { AreRowsOf (net_of P.behaviour circuit.now) rows.now }
    requires joint { joint < length circuit.now.joints }
    requires flows { GiverFlows (net_of P.behaviour circuit.now) rows.now joint }
    requires items { length items.old ≡ length circuit.now.joints }
    ensures { let net = net_of P.behaviour circuit.now in
        OnOk result (IsPut net rows.now joint items.old items.new flowing.old flowing.new) }
{
    put_given(alloc, circuit, ends, feeds, rows, joint, items)?;
    flowing.push(joint)
}

/// Puts the items at the joints of a part that flow, each behind those that feed it, and notes
/// them.
fn fill_part<P: Primitive>(
    alloc: Global,
    circuit: &Circuit<P>,
    knots: &Knots,
    ends: &Ends,
    feeds: &Feeds,
    rows: &[u32],
    part: usize,
    joints: &[usize],
    items: &mut List<Option<Value>>,
    flowing: &mut List<usize>,
) -> Result<(), NoMemory>
    requires knots { AreKnots (net_of P.behaviour circuit.now) knots.now }
    requires ends { AreEnds (net_of P.behaviour circuit.now) ends.now }
    requires feeds { AreFeeds (net_of P.behaviour circuit.now) feeds.now }
    requires rows { AreRowsOf (net_of P.behaviour circuit.now) rows.now }
    requires part { part < knot_count knots.now }
    requires joints { AreFlowingOf
        (net_of P.behaviour circuit.now) (in_knot knots.now.numbers part) rows.now joints.now }
    requires items { length items.old ≡ length circuit.now.joints }
    requires coloured { HaveColouring (net_of P.behaviour circuit.now) rows.now }
    requires blank { AreBlankOn
        (net_of P.behaviour circuit.now) (in_knot knots.now.numbers part) items.old }
    requires held { AreHeld items.old flowing.old }
    ensures { let net = net_of P.behaviour circuit.now in
        let inside = in_knot knots.now.numbers part in (others : Items (Option Item))
        → IsColouring net rows.now others
        → OnOk result (IsPartFilled net inside others items.old items.new flowing.new) }
{
    let _ = knots;
    circuit.known();
    for index in 0..joints.len() {
        put_item(
            alloc,
            circuit,
            ends,
            feeds,
            rows,
            joints[index],
            items,
            flowing,
        )?;
    }
    Ok(())
}

/// Puts the items at the joints that flow, which are given for each part. Only the parts are gone
/// to that are flagged, and those of no other flow.
#[inline(never)]
pub(crate) fn fill<P: Primitive>(
    alloc: Global,
    circuit: &Circuit<P>,
    knots: &Knots,
    ends: &Ends,
    feeds: &Feeds,
    rows: &[u32],
    lists: &List<List<usize>>,
    moving: &Flags,
    items: &mut List<Option<Value>>,
    flowing: &mut List<usize>,
) -> Result<(), NoMemory>
    requires knots { AreKnots (net_of P.behaviour circuit.now) knots.now }
    requires ends { AreEnds (net_of P.behaviour circuit.now) ends.now }
    requires feeds { AreFeeds (net_of P.behaviour circuit.now) feeds.now }
    requires rows { AreRowsOf (net_of P.behaviour circuit.now) rows.now }
    requires lists { AreFlowingIn
        (net_of P.behaviour circuit.now) knots.now rows.now (λ _. true) lists.now }
    requires moving { AreMoving (knot_count knots.now) moving.now lists.now }
    requires coloured { HaveColouring (net_of P.behaviour circuit.now) rows.now }
    requires blank { AreBlank (length circuit.now.joints) items.old }
    requires held { AreHeld items.old flowing.old }
    ensures { let net = net_of P.behaviour circuit.now in (others : Items (Option Item))
        → IsColouring net rows.now others
        → OnOk result (AreFilled others items.new flowing.new) }
{
    circuit.known();
    let mut part = moving.next_set(0);
    while part < moving.len() {
        let joints = lists.at(part).as_slice();
        fill_part(
            alloc, circuit, knots, ends, feeds, rows, part, joints, items, flowing,
        )?;
        part = moving.next_set(part + 1);
    }
    Ok(())
}
