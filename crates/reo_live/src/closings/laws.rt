//! Laws of how hearing closes. Each function calls laws alone: its contract is a law.
ghost use Rattle.reo_rounds.specs.Rules.{rules_of};
ghost use Rattle.reo_live.specs.closings.Laws.{ClosingExists, ClosingIsOne};

use crate::base::{cuts_change_nothing, hearing_exists, hearing_is_one};
use reo_net_base::Ported;
use reo_net_laws::first_is_one;
use reo_weights::cause_is_one;

/// Whatever a source gives, hearing it closes in some way, with some answers.
pub fn closing_exists<P: Ported>()
    ensures { let r = rules_of P.behaviour P.settled P.port_state P.placed P.withdrawn in
        ClosingExists r }
{
    cuts_change_nothing::<P>();
    hearing_exists::<P>();
}

/// It closes in no other way, and with no other answers.
pub fn closing_is_one<P: Ported>()
    ensures { let r = rules_of P.behaviour P.settled P.port_state P.placed P.withdrawn in
        ClosingIsOne r }
{
    first_is_one();
    cause_is_one();
    hearing_is_one::<P>();
}
