//! What is found, held against a text character by character.
use reo_net_base::Mark;

/// What is left of a text that is to be found, and whether all was as it says.
#[derive(Clone, Copy)]
pub struct Wanted<'a> {
    left: &'a [u8],
    right: bool,
}

/// All of a text.
pub fn all_of(text: &str) -> Wanted<'_> {
    Wanted {
        left: text.as_bytes(),
        right: true,
    }
}

/// Whether a text was found to its end.
pub fn is_found(wanted: &Wanted) -> bool {
    wanted.right && wanted.left.is_empty()
}

/// This is found next.
pub fn write(wanted: &mut Wanted, byte: u8) {
    match wanted.left.split_first() {
        Some((first, rest)) => {
            wanted.right = wanted.right && *first == byte;
            wanted.left = rest;
        }
        None => wanted.right = false,
    }
}

/// The letter of a mark.
pub fn letter(mark: Mark) -> u8 {
    match mark {
        Mark::F => b'F',
        Mark::G => b'G',
        Mark::R => b'R',
        Mark::J => b'J',
    }
}

/// The digit of a number, and `?` of one that has none.
pub fn digit(number: usize) -> u8 {
    match b"0123456789".get(number) {
        Some(byte) => *byte,
        None => b'?',
    }
}

/// The digit of a number, and `-` where there is no number.
pub fn digit_or_none(number: Option<usize>) -> u8 {
    match number {
        Some(number) => digit(number),
        None => b'-',
    }
}
