//! Whether what stands at a joint fits there.
ghost use Rattle.std.specs.Prelude.{◌≡◌, ◌<◌, ◌↔◌, IsTrue, Some, length, false, true};
ghost use Rattle.reo_net_base.specs.declared.mark.Mark.TheVariants.{F};
ghost use Rattle.reo_net_base.specs.Sides.{AreRowsOf};
ghost use Rattle.reo_net_base.specs.Ends.{IsGiver, IsTaker};
ghost use Rattle.reo_net_base.specs.Net.{net_of, all_sides, behaviour_at, mark_at};
ghost use Rattle.reo_net_base.specs.Colouring.{given_at, lets_in, ItemFits};
ghost use Rattle.reo_net.specs.colouring.Filled.{AllFit};

use crate::colouring::taken::taken;
use reo_net_base::{End, Joint, Primitive};
use reo_net_circuit::Circuit;
use reo_values::Value;

/// Whether an item is what the row of an end gives there.
fn is_given<P: Primitive>(
    circuit: &Circuit<P>,
    rows: &[u32],
    items: &[Option<Value>],
    giver: End,
    item: &Value,
) -> bool
    requires rows { AreRowsOf (net_of P.behaviour circuit.now) rows.now }
    requires items { length items.now ≡ length circuit.now.joints }
    requires giver { IsGiver (net_of P.behaviour circuit.now) giver }
    requires flows { mark_at (net_of P.behaviour circuit.now) rows.now giver ≡ F }
    ensures { let net = net_of P.behaviour circuit.now in
        IsTrue result ↔ (given_at net rows.now items.now giver ≡ Some item.now) }
{
    circuit.known();
    let row = circuit.row_at(rows, giver);
    let primitive = circuit.primitive(giver.primitive);
    let side = primitive.side_of(giver.end);
    match primitive.from(side, row, giver.end) {
        None => primitive.agrees(side, row, giver.end, None, item),
        Some(from) => {
            let source = End {
                primitive: giver.primitive,
                end: from,
            };
            let decides = taken(circuit.joints(), items, source);
            primitive.agrees(side, row, giver.end, decides, item)
        }
    }
}

/// Whether the row of an end lets an item in there.
#[tactic(auto, unfolding(reo_net_base::specs::Colouring::lets_in))]
fn is_let_in<P: Primitive>(circuit: &Circuit<P>, rows: &[u32], taker: End, item: &Value) -> bool
    requires rows { AreRowsOf (net_of P.behaviour circuit.now) rows.now }
    requires taker { IsTaker (net_of P.behaviour circuit.now) taker }
    ensures { result ≡ lets_in (net_of P.behaviour circuit.now) rows.now taker item.now }
{
    circuit.known();
    let row = circuit.row_at(rows, taker);
    let primitive = circuit.primitive(taker.primitive);
    primitive.passes(primitive.side_of(taker.end), row, taker.end, item)
}

/// Whether what stands at a joint between ends of the circuit fits there: an item exactly where the
/// joint flows, one that the giver's row gives and the taker's row lets in. This takes no memory.
pub fn fits<P: Primitive>(
    circuit: &Circuit<P>,
    rows: &[u32],
    items: &[Option<Value>],
    joint: Joint,
    item: &Option<Value>,
) -> bool
    requires rows { AreRowsOf (net_of P.behaviour circuit.now) rows.now }
    requires items { length items.now ≡ length circuit.now.joints }
    requires giver { IsGiver (net_of P.behaviour circuit.now) joint.giver }
    requires taker { IsTaker (net_of P.behaviour circuit.now) joint.taker }
    ensures { let net = net_of P.behaviour circuit.now in
        IsTrue result ↔ ItemFits net rows.now items.now joint item.now }
{
    let flows = circuit.mark_at(rows, joint.giver).is_flow();
    match item {
        None => !flows,
        Some(item) => {
            flows
                && is_given(circuit, rows, items, joint.giver, item)
                && is_let_in(circuit, rows, joint.taker, item)
        }
    }
}

/// Whether what stands at each joint fits there.
pub(crate) fn all_fit<P: Primitive>(
    circuit: &Circuit<P>,
    rows: &[u32],
    items: &[Option<Value>],
) -> bool
    requires rows { AreRowsOf (net_of P.behaviour circuit.now) rows.now }
    requires items { length items.now ≡ length circuit.now.joints }
    ensures { IsTrue result ↔ AllFit (net_of P.behaviour circuit.now) rows.now items.now }
{
    circuit.known();
    for index in 0..circuit.joint_count() {
        let joint = circuit.joint(index);
        if !fits(circuit, rows, items, joint, &items[index]) {
            return false;
        }
    }
    true
}
