//! Joints at which the item does not fit.
ghost use Rattle.std.specs.Prelude.{◌≡◌, ◌<◌, MatchOption, length};
ghost use Rattle.reo_net_base.specs.Sides.{AreRowsOf};
ghost use Rattle.reo_net_base.specs.Net.{net_of};
ghost use Rattle.reo_net.specs.colouring.Filled.{AllFit};
ghost use Rattle.reo_checker.specs.Faults.{IsItemFault};

use reo_net::fits;
use reo_net_base::Primitive;
use reo_net_circuit::Circuit;
use reo_values::Value;

/// The least joint that lacks its item, has one without flow, or has an item that the giver's row
/// does not give or the taker's row does not let in. This takes no memory.
pub fn item_fault<P: Primitive>(
    circuit: &Circuit<P>,
    rows: &[u32],
    items: &[Option<Value>],
) -> Option<usize>
    requires rows { AreRowsOf (net_of P.behaviour circuit.now) rows.now }
    requires items { length items.now ≡ length circuit.now.joints }
    ensures { let net = net_of P.behaviour circuit.now in
        MatchOption result (AllFit net rows.now items.now) (IsItemFault net rows.now items.now) }
{
    circuit.known();
    for index in 0..circuit.joint_count() {
        let joint = circuit.joint(index);
        if !fits(circuit, rows, items, joint, &items[index]) {
            return Some(index);
        }
    }
    None
}
