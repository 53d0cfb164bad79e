//! Laws of logs.
ghost use Rattle.reo_proof_laws.specs.Logs.{FirstsHaveLogs, LogsAreLines, WithinIsNarrow};

use reo_refute_base::{items_are_listed, logs_exist};

/// Where no part of a circuit is over a budget, at no joint can more than 256 items stand.
pub fn within_is_narrow()
    ensures { WithinIsNarrow }
{}

/// The text of a right log is that of whole lines, none of which ends a log.
pub fn logs_are_lines()
    ensures { LogsAreLines }
{}

/// In a circuit of which no joint is wide, the rows of the first colouring have a log that shows
/// that they are.
pub fn firsts_have_logs()
    ensures { FirstsHaveLogs }
{
    items_are_listed();
    logs_exist();
}
