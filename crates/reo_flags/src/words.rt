//! Bits in a row of words.
ghost use Rattle.std.specs.Prelude.{◌≡◌, ℕ, ◌*◌, ◌^◌, ◌<◌, ◌≤◌, not, length};
ghost use Rattle.std.specs.Int.{bit_at};
ghost use Rattle.reo_flags.specs.Bits.{AreKeptBits, bit_of, IsNextBit};

/// How many bits a word has.
pub(crate) const BITS: usize = 64;

/// The word of which all bits have this value.
pub(crate) fn word_of(value: bool) -> u64
    ensures { (i : ℕ) → i < 64 → bit_of result i ≡ value }
{
    if value { u64::MAX } else { 0 }
}

/// Whether a bit of a word is set.
pub(crate) fn has_bit(word: u64, place: usize) -> bool
    requires { place < 64 }
    ensures { result ≡ bit_of word place }
{
    (word >> place) & 1 == 1
}

/// The word with this value as one of its bits.
pub(crate) fn with_bit(word: u64, place: usize, value: bool) -> u64
    requires { place < 64 }
    ensures here { bit_of result place ≡ value }
    ensures others { (i : ℕ) → i < 64 → (i ≡ place → ⊥) → bit_of result i ≡ bit_of word i }
{
    if value {
        word | 1u64 << place
    } else {
        word & !(1u64 << place)
    }
}

/// A word whose bits are set where those of a word have this value.
#[inline(always)]
fn having(word: u64, value: bool) -> u64
    ensures set { (i : ℕ) → i < 64 → bit_at result i ≡ 1 → bit_of word i ≡ value }
    ensures clear { (i : ℕ) → i < 64 → bit_at result i ≡ 0 → bit_of word i ≡ not value }
{
    if value { word } else { !word }
}

/// Clears each bit of words at a place where that of others has not this value. All others stay.
#[inline(always)]
pub(crate) fn keep_bits(words: &mut [u64], marks: &[u64], value: bool)
    requires { length marks.now ≡ length words.old }
    ensures { AreKeptBits value marks.now (64 * length words.old) words.old words.new }
{
    for place in 0..words.len() {
        words[place] = words[place] & having(marks[place], value);
    }
}

/// The next bit of a value from the first of a word on.
#[inline(always)]
fn next_from(words: &[u64], first: usize, value: bool) -> usize
    requires few { 64 * length words.now < 2 ^ 64 }
    requires first { first ≤ length words.now }
    ensures { IsNextBit value words.now (64 * first) result }
{
    for place in first..words.len() {
        let found = having(words[place], value);
        if found != 0 {
            return BITS * place + found.trailing_zeros() as usize;
        }
    }
    BITS * words.len()
}

/// The least place from `from` on whose bit has this value, or the number of bits if there is none.
#[inline(always)]
pub(crate) fn next_bit(words: &[u64], from: usize, value: bool) -> usize
    requires few { 64 * length words.now < 2 ^ 64 }
    requires from { from < 64 * length words.now }
    ensures { IsNextBit value words.now from result }
{
    let found = having(words[from / BITS], value) >> (from % BITS);
    if found != 0 {
        from + found.trailing_zeros() as usize
    } else {
        next_from(words, from / BITS + 1, value)
    }
}
