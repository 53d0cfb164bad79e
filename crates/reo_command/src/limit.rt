//! How far a run may go, by the words.
ghost use Rattle.std.specs.Prelude.{◌≡◌, ◌≤◌, ◌^◌};
ghost use Rattle.reo_command.specs.Limits.{budget_of, limits_of, number_or_absent, usual_limits};

use crate::command::{Command, options_of};
use crate::setting::{Setting, number_at};
use reo_runner::Limits;
use reo_values::Bytes;

/// How far a run may go where no option says it.
pub fn usual_limits() -> Limits
    ensures { result ≡ usual_limits }
{
    Limits {
        budget: Setting::Budget.absent(),
        rounds: Setting::Rounds.absent(),
    }
}

/// The number of an option of a command, by its place among the options: that for where it is
/// absent, where the words are not those of the command.
fn number_or_absent(command: Command, words: &[Bytes], place: usize, setting: Setting) -> u64
    ensures { result ≡ number_or_absent command words.now place setting }
{
    let options = options_of(command, words);
    let number = number_at(command.settings(), options, place);
    number.unwrap_or(setting.absent())
}

/// How far the run of these words may go.
pub(crate) fn limits_of(words: &[Bytes]) -> Limits
    ensures limits { result ≡ limits_of words.now }
    ensures some_budget { 1 ≤ result.budget }
    ensures small_budget { result.budget ≤ 10 ^ 9 }
    ensures some_round { 1 ≤ result.rounds }
    ensures few_rounds { result.rounds ≤ 10 ^ 9 }
{
    Limits {
        budget: number_or_absent(Command::Run, words, 0, Setting::Budget),
        rounds: number_or_absent(Command::Run, words, 1, Setting::Rounds),
    }
}

/// The budget of the rounds that these words hear.
pub(crate) fn budget_of(words: &[Bytes]) -> u64
    ensures budget { result ≡ budget_of words.now }
    ensures some { 1 ≤ result }
    ensures small { result ≤ 10 ^ 9 }
{
    number_or_absent(Command::Live, words, 0, Setting::Budget)
}
