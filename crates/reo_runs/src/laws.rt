//! Laws of runs.
ghost use Rattle.reo_rounds.specs.Rules.{rules_of};
ghost use Rattle.reo_runs.specs.Justified.{RunsAreJustified};
ghost use Rattle.reo_runs.specs.Started.{RoundsStart};
ghost use Rattle.reo_runs.specs.Whole.{RunExists, RunIsOne};

use reo_net_base::Ported;
use reo_net_laws::{first_exists, first_flows, first_is_one, first_jams_for_cause};
use reo_players::offers_agree;
use reo_trace::idle_means_no_flow;
use reo_weights::{cause_is_one, over_is_decided};

/// Where the joints have an order, there is a run from each start, and each beginning of a run
/// goes on to a whole run, also with any round that can come next.
pub fn trace_exists<P: Ported>()
    ensures { RunExists (rules_of P.behaviour P.settled P.port_state P.placed P.withdrawn) }
{
    first_exists();
    over_is_decided();
}

/// Where the joints have an order, two runs from one start have the same lines and the same
/// ending.
pub fn one_trace<P: Ported>()
    ensures { RunIsOne (rules_of P.behaviour P.settled P.port_state P.placed P.withdrawn) }
{
    first_is_one();
    cause_is_one();
}

/// In every circuit each round of a run is idle only where no colouring flows, and jams only what
/// has no three-colouring.
pub fn runs_are_justified<P: Ported>()
    ensures { RunsAreJustified (rules_of P.behaviour P.settled P.port_state P.placed P.withdrawn) }
{
    first_flows();
    first_jams_for_cause();
    idle_means_no_flow();
}

/// Where no two components offer at one port and each offers what its port takes, the circuit with
/// their offers stands at the start of a round: at each port exactly the offer of the component
/// whose present action names it is pending, at every other port nothing, and nothing else differs.
pub fn rounds_start<P: Ported>()
    ensures { RoundsStart (rules_of P.behaviour P.settled P.port_state P.placed P.withdrawn) }
{
    offers_agree();
}
