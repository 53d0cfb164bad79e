//! Rows out of their tables.
ghost use Rattle.std.specs.Prelude.{◌≡◌, ◌<◌, MatchOption, length};
ghost use Rattle.reo_net_base.specs.Sides.{AreRowsOf, side_count};
ghost use Rattle.reo_net_base.specs.Net.{net_of};
ghost use Rattle.reo_checker.specs.Faults.{IsRowFault};

use reo_net_base::Primitive;
use reo_net_circuit::Circuit;

/// The least primitive with a row that is out of its table.
pub(crate) fn row_fault<P: Primitive>(circuit: &Circuit<P>, rows: &[u32]) -> Option<usize>
    requires { length rows.now ≡ side_count (net_of P.behaviour circuit.now) }
    ensures { let net = net_of P.behaviour circuit.now in
        MatchOption result (AreRowsOf net rows.now) (IsRowFault net rows.now) }
{
    for side in 0..circuit.sides() {
        if rows[side] as usize >= circuit.rows(side) {
            return Some(circuit.owner(side).primitive);
        }
    }
    None
}
