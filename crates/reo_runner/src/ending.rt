//! How a run ends.
ghost use Rattle.std.specs.Prelude.{◌≡◌, ◌<◌, ◌≤◌};
ghost use Rattle.reo_io.specs.Causes.{Rose};
ghost use Rattle.reo_runner.specs.Outcome.{Closes, outcome_end};

use crate::outcome::{End2, Outcome, Tally};
use reo_io::Sink;
use reo_trace::{Ending, WriteFault, write_ending};
use std::alloc::Global;

/// The end that an outcome names for an ending.
fn outcome_end(ending: Ending) -> End2
    ensures { result ≡ outcome_end ending }
{
    match ending {
        Ending::Done { .. } => End2::Done,
        Ending::Stuck { .. } => End2::Stuck,
        Ending::Limit { .. } => End2::Limit,
        Ending::Spent { knot, weight, .. } => End2::Spent { knot, weight },
        Ending::Wide { knot, .. } => End2::Wide { knot },
    }
}

/// Writes the ending of a run, and answers its outcome.
pub(crate) fn close<S: Sink>(alloc: Global, ending: Ending, tally: Tally, out: &mut S) -> Outcome
    ensures text { Closes ending tally (S.told out.old) (S.told out.new) result }
    ensures cause { result.end ≡ End2.WriteFault → Rose (S.faults out.old) (S.faults out.new) }
    ensures later { S.faults out.old ≤ S.faults out.new }
    ensures risen { S.faults out.old < S.faults out.new → result.end ≡ End2.WriteFault }
{
    match write_ending(alloc, &ending, out) {
        Ok(()) => tally.outcome(outcome_end(ending)),
        Err(WriteFault::Failed) => tally.outcome(End2::WriteFault),
        Err(WriteFault::NoMemory) => tally.outcome(End2::NoMemory),
    }
}
