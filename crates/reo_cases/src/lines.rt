//! The lines of a text.
ghost use Rattle.std.specs.Prelude.{◌≡◌, ◌≤◌, ◌++◌, length, List, ℕ, count_by};
ghost use Rattle.reo_cases.specs.Lines.{is_feed};

/// How many line feeds a text has.
pub(crate) fn count_of(text: &[u8]) -> usize
    ensures feeds { result ≡ count_by is_feed text.now }
    ensures few { result ≤ length text.now }
{
    let mut count = 0;
    for byte in text {
        if *byte == b'\n' {
            count += 1;
        }
    }
    count
}

/// How many bytes the whole lines have that stand at the front of two texts, of the second not the
/// last one.
pub(crate) fn shared_of(before: &[u8], text: &[u8]) -> usize
    ensures bound { result ≤ length text.now }
{
    let mut shared = 0;
    for (at, byte) in text.iter().enumerate() {
        if before.get(at) != Some(byte) {
            break;
        }
        if *byte == b'\n' && at + 1 < text.len() {
            shared = at + 1;
        }
    }
    shared
}

/// The last line of a text, with its line feed.
pub(crate) fn last_of(text: &[u8]) -> &[u8]
    ensures { (front : List ℕ) × (text.now ≡ front ++ result.now) }
{
    let mut begin = 0;
    for (at, byte) in text.iter().enumerate() {
        if *byte == b'\n' && at + 1 < text.len() {
            begin = at + 1;
        }
    }
    &text[begin..]
}
