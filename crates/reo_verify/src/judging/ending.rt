//! Endings of runs.
ghost use Rattle.std.specs.Prelude.{◌≡◌, ◌↔◌, IsTrue, cond, Some, None};
ghost use Rattle.reo_players.specs.Players.{all_done};
ghost use Rattle.reo_trace.specs.declared.line.Ending.TheVariants.{Done as IsDone};
ghost use Rattle.reo_runs.specs.verdicts.Replays.{MayStop};
ghost use Rattle.reo_verify.specs.judging.Ends.{IsEndOf};

use reo_players::Players;
use reo_trace::Ending;

/// How a run is over before its first round, if it is.
pub fn begins(players: &Players) -> Option<Ending>
    ensures { result ≡ cond (all_done players.now) (Some (IsDone 0)) None }
{
    if players.all_done() {
        Some(Ending::Done { rounds: 0 })
    } else {
        None
    }
}

/// Whether an ending may stand in place of the round of a number.
fn may_stop(turn: u64, ending: Ending) -> bool
    ensures { IsTrue result ↔ MayStop turn ending }
{
    match ending {
        Ending::Done { .. } => false,
        Ending::Stuck { .. } => false,
        Ending::Limit { rounds } => rounds < turn && rounds + 1 == turn,
        Ending::Spent { round, .. } => round == turn,
        Ending::Wide { round, .. } => round == turn,
    }
}

/// Whether an ending is that of a run that is over so, or, where it is not, may stand in place of
/// the round of a number.
pub fn ends_as(over: Option<Ending>, turn: u64, ending: Ending) -> bool
    ensures { IsTrue result ↔ IsEndOf over turn ending }
{
    match over {
        Some(over) => over == ending,
        None => may_stop(turn, ending),
    }
}
