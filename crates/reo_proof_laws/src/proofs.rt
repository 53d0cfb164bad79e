//! Laws of proved texts.
ghost use Rattle.reo_rounds.specs.Rules.{rules_of};
ghost use Rattle.reo_proof_laws.specs.Proofs.{ProofsExist, ProvedTextsAreCut};

use crate::logs::{firsts_have_logs, logs_are_lines};
use reo_net_base::Ported;
use reo_net_laws::first_exists;
use reo_weights::over_is_decided;

/// Where the joints have an order, there is a proved text of a run from each start, and rounds with
/// right logs with which a run begins go on to a proved text.
pub fn proofs_exist<P: Ported>()
    ensures { ProofsExist (rules_of P.behaviour P.settled P.port_state P.placed P.withdrawn) }
{
    first_exists();
    over_is_decided();
    firsts_have_logs();
}

/// In each proved text of a run the logs are whole lines, none of which ends a log.
pub fn proved_texts_are_cut<P: Ported>()
    ensures { let r = rules_of P.behaviour P.settled P.port_state P.placed P.withdrawn in
        ProvedTextsAreCut r }
{
    logs_are_lines();
}
