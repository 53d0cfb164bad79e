//! Laws of what is heard and answered. Each function calls laws alone: its contract is a law.
ghost use Rattle.reo_rounds.specs.Rules.{rules_of};
ghost use Rattle.reo_live.specs.base.Laws.{CutsChangeNothing, EndingExists, HearingExists, HearingIsOne};

use reo_net_base::Ported;
use reo_net_laws::{first_exists, first_is_one};
use reo_script::each_line_is_answered;
use reo_weights::{cause_is_one, over_is_decided};

/// After two pieces, one behind the other, it has come to the state that it comes to after their
/// sum, and has answered the same: so it does not matter how bytes are cut into pieces.
pub fn cuts_change_nothing<P: Ported>()
    ensures { let r = rules_of P.behaviour P.settled P.port_state P.placed P.withdrawn in
        CutsChangeNothing r }
{}

/// Whatever comes, there is a state after it, with answers, and there are answers to the end.
pub fn hearing_exists<P: Ported>()
    ensures { let r = rules_of P.behaviour P.settled P.port_state P.placed P.withdrawn in
        HearingExists r }
{
    first_exists();
    over_is_decided();
    each_line_is_answered();
}

/// Wherever the input ends, there are answers to its end.
pub fn ending_exists<P: Ported>()
    ensures { let r = rules_of P.behaviour P.settled P.port_state P.placed P.withdrawn in
        EndingExists r }
{
    first_exists();
    over_is_decided();
    each_line_is_answered();
}

/// There is one state after what came, and there are no other answers.
pub fn hearing_is_one<P: Ported>()
    ensures { let r = rules_of P.behaviour P.settled P.port_state P.placed P.withdrawn in
        HearingIsOne r }
{
    first_is_one();
    cause_is_one();
}
