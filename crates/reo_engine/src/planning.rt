//! Plans that suit.
ghost use Rattle.std.specs.Prelude.{◌↔◌, IsTrue};
ghost use Rattle.reo_net_base.specs.Net.{net_of};
ghost use Rattle.reo_net_base.specs.Sides.{AreRowsOf};
ghost use Rattle.reo_rounds.specs.Plans.{ShowsItsOwn, Suits};

use reo_net::{are_moves, is_colouring};
use reo_net_base::Primitive;
use reo_net_circuit::Circuit;
use reo_rounds::{Plan, jammed_sides};
use reo_trace::is_idle;

/// Whether a plan's moves, and what it says of flow and jams, are those of its rows and items.
fn shows_its_own<P: Primitive>(circuit: &Circuit<P>, plan: &Plan) -> bool
    requires { AreRowsOf (net_of P.behaviour circuit.now) plan.now.colouring.rows }
    ensures { let net = net_of P.behaviour circuit.now in
        IsTrue result ↔ ShowsItsOwn net circuit.now.ports plan.now }
{
    let rows = plan.colouring.rows.as_slice();
    let items = plan.colouring.items.as_slice();
    if plan.idle != is_idle(circuit, rows) {
        return false;
    }
    if plan.jammed != jammed_sides(circuit, rows) {
        return false;
    }
    are_moves(circuit, rows, items, plan.moves.as_slice())
}

/// Whether a plan suits a circuit.
pub(crate) fn suits<P: Primitive>(circuit: &Circuit<P>, plan: &Plan) -> bool
    ensures { IsTrue result ↔ Suits (net_of P.behaviour circuit.now) circuit.now.ports plan.now }
{
    let rows = plan.colouring.rows.as_slice();
    let items = plan.colouring.items.as_slice();
    is_colouring(circuit, rows, items) && shows_its_own(circuit, plan)
}
