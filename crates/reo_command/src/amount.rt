//! The amounts that commands are told: numbers, each a word by itself.
ghost use Rattle.std.specs.Prelude.{◌≡◌, ◌≤◌, IfSome};
ghost use Rattle.reo_command.specs.Amounts.{least_amount, most_amount, amount_in, are_amounts, size_of};

use crate::number::number_in;
use reo_values::Bytes;

/// An amount that a command is told.
#[derive(Clone, Copy, Debug, PartialEq, Eq)]
pub enum Amount {
    /// How large the work is that is made: how many stages its circuit has in a row.
    Size,
}

impl Amount {
    /// The least amount.
    fn least(self) -> u64
        ensures { result ≡ least_amount self }
    {
        match self {
            Amount::Size => 1,
        }
    }

    /// The greatest amount.
    fn most(self) -> u64
        ensures { result ≡ most_amount self }
    {
        match self {
            Amount::Size => 256,
        }
    }

    /// The amount that a word says: `None` where it says none.
    fn told(self, word: &[u8]) -> Option<u64>
        ensures exact { result ≡ amount_in self word.now }
        ensures least { IfSome result (λ number. least_amount self ≤ number) }
        ensures most { IfSome result (λ number. number ≤ most_amount self) }
    {
        number_in(self.least(), self.most(), word)
    }
}

/// Whether a word for each of these amounts stands at the front of these words.
pub(crate) fn are_amounts(amounts: &[Amount], words: &[Bytes]) -> bool
    ensures { result ≡ are_amounts amounts.now words.now }
{
    let [amount, others @ ..] = amounts else {
        return true;
    };
    match words {
        [] => false,
        [word, rest @ ..] => { amount.told(word.as_slice()).is_some() && are_amounts(others, rest) }
    }
}

/// The size of the work that is made, by the words: 1 to 256.
pub(crate) fn size_of(words: &[Bytes]) -> u32
    ensures size { result ≡ size_of words.now }
    ensures some { 1 ≤ result }
    ensures few { result ≤ 256 }
{
    match words.get(1) {
        Some(word) => Amount::Size.told(word.as_slice()).unwrap_or(1) as u32,
        None => 1,
    }
}
