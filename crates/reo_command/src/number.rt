//! Numbers that words say.
ghost use Rattle.std.specs.Prelude.{◌≡◌, ◌≤◌, IfSome, length, true};
ghost use Rattle.std.specs.List.{list_all};
ghost use Rattle.reo_values.specs.Names.{is_digit};
ghost use Rattle.reo_grammar.specs.Tokens.{number_from};
ghost use Rattle.reo_command.specs.Numbers.{is_number, number_in};

/// Whether a byte is a decimal digit.
fn is_digit(byte: u8) -> bool
    ensures { result ≡ is_digit byte }
{
    b'0' <= byte && byte <= b'9'
}

/// Whether each byte is a decimal digit.
fn are_digits(word: &[u8]) -> bool
    ensures { result ≡ list_all is_digit word.now }
{
    word.iter().all(|byte| is_digit(*byte))
}

/// Whether a word is one to ten digits.
fn is_number(word: &[u8]) -> bool
    ensures { result ≡ is_number word.now }
{
    !word.is_empty() && word.len() <= 10 && are_digits(word)
}

/// The number of at most ten digits.
fn value_of(digits: &[u8]) -> u64
    requires digits { list_all is_digit digits.now ≡ true }
    requires few { length digits.now ≤ 10 }
    ensures { result ≡ number_from 0 digits.now }
{
    let mut value: u64 = 0;
    for digit in digits {
        value = value * 10 + (*digit - b'0') as u64;
    }
    value
}

/// The number that a word says, from the least to the most: `None` where it says none of these.
pub(crate) fn number_in(least: u64, most: u64, word: &[u8]) -> Option<u64>
    ensures exact { result ≡ number_in least most word.now }
    ensures least { IfSome result (λ number. least ≤ number) }
    ensures most { IfSome result (λ number. number ≤ most) }
{
    if !is_number(word) {
        return None;
    }
    let number = value_of(word);
    if least <= number && number <= most {
        Some(number)
    } else {
        None
    }
}
