//! Laws of the rounds that lines show.
ghost use Rattle.reo_rounds.specs.Rules.{rules_of};
ghost use Rattle.reo_draw_replay.specs.Laws.{OneRound};

use reo_net_base::Ported;

/// Where the joints have an order, lines show one circuit, one line and one colouring in the round
/// of a number.
pub fn one_round<P: Ported>()
    ensures { OneRound (rules_of P.behaviour P.settled P.port_state P.placed P.withdrawn) }
{}
