//! Digits at the front of a text, and the number that they are.
ghost use Rattle.std.specs.Prelude.{◌≡◌, ◌≢◌, ◌≤◌, ℕ, take, drop, length, true, false, MatchOption};
ghost use Rattle.std.specs.Fmt.{decimal};
ghost use Rattle.std.specs.List.{All};
ghost use Rattle.std.specs.Str.Parse.{digits_value};
ghost use Rattle.reo_values.specs.decimals.Digits.{HasFewDigits, IsDigit, IsSmall, NoDigit};

/// The most digits that a number below 2^63 has.
const MOST_DIGITS: usize = 19;

/// How many digits stand first.
pub fn digits_length(text: &[u8]) -> usize
    ensures within { result ≤ length text.now }
    ensures digits { All IsDigit (take result text.now) }
    ensures ends { NoDigit (drop result text.now) }
{
    for (at, byte) in text.iter().enumerate() {
        if *byte < b'0' || b'9' < *byte {
            return at;
        }
    }
    text.len()
}

/// Whether digits are as many as a number below 2^63 may have, without a leading zero.
fn has_few_digits(digits: &[u8]) -> bool
    ensures yes { result ≡ true → HasFewDigits digits.now }
    ensures no { result ≡ false → HasFewDigits digits.now → ⊥ }
{
    match digits {
        [] => false,
        [_] => true,
        [first, ..] => *first != b'0' && digits.len() <= MOST_DIGITS,
    }
}

/// The number that digits say.
fn value_of(digits: &[u8]) -> u64
    requires few { length digits.now ≤ 19 }
    requires digits { All IsDigit digits.now }
    ensures { result ≡ digits_value 10 digits.now }
{
    let mut value: u64 = 0;
    for digit in digits {
        value = value * 10 + u64::from(*digit - b'0');
    }
    value
}

/// The number below 2^63 that these digits are, or None where they are none: a leading zero is
/// part of none.
pub fn number_of(digits: &[u8]) -> Option<u64>
    requires { All IsDigit digits.now }
    ensures { MatchOption result ((n : ℕ) → IsSmall n → digits.now ≢ decimal n)
        (λ n. IsSmall n × (digits.now ≡ decimal n)) }
{
    if !has_few_digits(digits) {
        return None;
    }
    let value = value_of(digits);
    if value < 1 << 63 { Some(value) } else { None }
}
