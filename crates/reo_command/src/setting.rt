//! The options of commands: numbers, each behind a word of its own.
ghost use Rattle.std.specs.Prelude.{◌≡◌, option_and_then, slice_get};
ghost use Rattle.std.specs.Option.{is_some};
ghost use Rattle.reo_command.specs.Settings.{setting_word, least, most, absent, number_behind, stands, number_of, behind, numbers_of};

use crate::number::number_in;
use reo_values::Bytes;

/// An option of a command.
#[derive(Clone, Copy, Debug, PartialEq, Eq)]
pub enum Setting {
    /// `--budget N`: the greatest weight of a part that a round may be planned for.
    Budget,
    /// `--rounds N`: how many rounds may be made.
    Rounds,
}

impl Setting {
    /// The word before the number.
    fn word(self) -> &'static [u8]
        ensures { result.now ≡ setting_word self }
    {
        match self {
            Setting::Budget => b"--budget",
            Setting::Rounds => b"--rounds",
        }
    }

    /// The least number.
    fn least(self) -> u64
        ensures { result ≡ least self }
    {
        match self {
            Setting::Budget | Setting::Rounds => 1,
        }
    }

    /// The greatest number.
    fn most(self) -> u64
        ensures { result ≡ most self }
    {
        match self {
            Setting::Budget | Setting::Rounds => 1_000_000_000,
        }
    }

    /// The number that stands for the option where it is absent.
    pub(crate) fn absent(self) -> u64
        ensures { result ≡ absent self }
    {
        match self {
            Setting::Budget | Setting::Rounds => 100_000,
        }
    }
}

/// The number that a word says, in the range of an option.
fn number_behind(setting: Setting, word: &[u8]) -> Option<u64>
    ensures { result ≡ number_behind setting word.now }
{
    number_in(setting.least(), setting.most(), word)
}

/// Whether an option stands at the front of these words.
fn stands(setting: Setting, words: &[Bytes]) -> bool
    ensures { result ≡ stands setting words.now }
{
    match words {
        [] => false,
        [word, ..] => word.as_slice() == setting.word(),
    }
}

/// The number of an option at the front of these words, or for where it is absent. `None` where no
/// number of its range is behind its word.
fn number_of(setting: Setting, words: &[Bytes]) -> Option<u64>
    ensures { result ≡ number_of setting words.now }
{
    if !stands(setting, words) {
        return Some(setting.absent());
    }
    match words.get(1) {
        Some(word) => number_behind(setting, word.as_slice()),
        None => None,
    }
}

/// The words behind an option.
fn behind(setting: Setting, words: &[Bytes]) -> &[Bytes]
    ensures { result.now ≡ behind setting words.now }
{
    if stands(setting, words) {
        words.get(2..).unwrap_or(&[])
    } else {
        words
    }
}

/// Whether these words are those of the options that are not absent, in their order, and nothing
/// else.
pub(crate) fn are_options(settings: &[Setting], words: &[Bytes]) -> bool
    ensures { result ≡ is_some (numbers_of settings.now words.now) }
{
    match settings {
        [] => words.is_empty(),
        [setting, others @ ..] => {
            number_of(*setting, words).is_some() && are_options(others, behind(*setting, words))
        }
    }
}

/// The number of the option with this place, in words that are those of these options. Otherwise
/// `None`, and where there is no such option.
pub(crate) fn number_at(settings: &[Setting], words: &[Bytes], place: usize) -> Option<u64>
    ensures { result ≡ option_and_then (λ numbers. slice_get numbers place)
        (numbers_of settings.now words.now) }
{
    let [setting, others @ ..] = settings else {
        return None;
    };
    let number = number_of(*setting, words)?;
    let rest = behind(*setting, words);
    if place != 0 {
        number_at(others, rest, place - 1)
    } else if are_options(others, rest) {
        Some(number)
    } else {
        None
    }
}
