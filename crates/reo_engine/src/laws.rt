//! Laws of engines.
ghost use Rattle.reo_rounds.specs.Rules.{rules_of};
ghost use Rattle.reo_engine.specs.MadeRounds.{MadeRoundsAreRounds};
ghost use Rattle.reo_engine.specs.Suited.{PlansSuit};

use reo_net_base::Ported;

/// Each plan suits the circuit that it was made for.
pub fn plans_suit()
    ensures { PlansSuit }
{}

/// A round that is made by the first colouring is the round of the circuit, and its line shows it.
pub fn made_rounds_are_rounds<P: Ported>()
    ensures { let r = rules_of P.behaviour P.settled P.port_state P.placed P.withdrawn in
        MadeRoundsAreRounds r }
{}
