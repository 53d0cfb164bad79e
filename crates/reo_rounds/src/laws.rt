//! Laws of rounds.
ghost use Rattle.reo_net_base.specs.Net.{net_of};
ghost use Rattle.reo_rounds.specs.Laws.{PlannedRoundsAreMade};
ghost use Rattle.reo_rounds.specs.Order.{HasOrder};
ghost use Rattle.reo_rounds.specs.Rules.{rules_of};

use reo_net_base::Ported;
use reo_net_circuit::Circuit;

/// What holds of each circuit: its joints have an order.
pub fn known_order<P: Ported>(circuit: &Circuit<P>)
    ensures { HasOrder (net_of P.behaviour circuit.now) }
{
    circuit.known();
    let _order = circuit.order();
}

/// A round that is planned is the round of the circuit: its line, and the circuit that steps by its
/// rows and items.
pub fn planned_rounds_are_made<P: Ported>()
    ensures { let r = rules_of P.behaviour P.settled P.port_state P.placed P.withdrawn in
        PlannedRoundsAreMade r }
{}
