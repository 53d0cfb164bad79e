//! Laws of proof texts.
ghost use Rattle.reo_rounds.specs.Rules.{rules_of};
ghost use Rattle.reo_proof_texts.specs.Laws.{OneProofVerdict, ProvedTextsAreOfRuns, ProvedTextsAreVerified, VerifiedRoundsAreFirst};

use reo_net_base::Ported;
use reo_refute_base::right_logs_refute;

/// Where the joints have an order, a proof text has at most one verdict.
pub fn one_proof_verdict<P: Ported>()
    ensures { OneProofVerdict (rules_of P.behaviour P.settled P.port_state P.placed P.withdrawn) }
{}

/// Where the joints have an order, a proof text is verified only where each of its rounds is the
/// first colouring of the state that the rounds before it have left.
pub fn verified_rounds_are_first<P: Ported>()
    ensures { let r = rules_of P.behaviour P.settled P.port_state P.placed P.withdrawn in
        VerifiedRoundsAreFirst r }
{
    right_logs_refute();
}

/// The proved text of a run is verified.
pub fn proved_texts_are_verified<P: Ported>()
    ensures { let r = rules_of P.behaviour P.settled P.port_state P.placed P.withdrawn in
        ProvedTextsAreVerified r }
{}

/// The proved text of a run has the rounds and the ending of the run.
pub fn proved_texts_are_of_runs<P: Ported>()
    ensures { let r = rules_of P.behaviour P.settled P.port_state P.placed P.withdrawn in
        ProvedTextsAreOfRuns r }
{}
