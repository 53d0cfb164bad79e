//! What verdicts say, of which traces.
ghost use Rattle.reo_rounds.specs.Rules.{rules_of};
ghost use Rattle.reo_runs.specs.verdicts.Laws.{RunsAreVerified, OneVerdict, RefusedItemsAreNotLetIn, VerifiedSays};

use reo_net_base::Ported;

/// The verdict on the whole trace of a run, whatever its ending, is that it is verified.
pub fn runs_are_verified<P: Ported>()
    ensures { RunsAreVerified (rules_of P.behaviour P.settled P.port_state P.placed P.withdrawn) }
{}

/// Where the joints have an order, a trace has at most one verdict.
pub fn one_verdict<P: Ported>()
    ensures { OneVerdict (rules_of P.behaviour P.settled P.port_state P.placed P.withdrawn) }
{}

/// A trace is verified exactly where it can be replayed: each round is a colouring of the state
/// that the rounds before it have left, with its own moves; no round stands after every component
/// is done, or after the run is stuck; and the ending is that of the replay.
pub fn verified_says<P: Ported>()
    ensures { VerifiedSays (rules_of P.behaviour P.settled P.port_state P.placed P.withdrawn) }
{}

/// Where the joints have an order, an item for which the entries of a line are refused is one that
/// the taker's row does not let in: by the rows that the entries say it stands at the joint.
pub fn refused_items_are_not_let_in()
    ensures { RefusedItemsAreNotLetIn }
{}
