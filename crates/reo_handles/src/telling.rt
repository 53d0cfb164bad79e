//! The words of numbers that calls answer.
ghost use Rattle.std.specs.Prelude.{◌≡◌, ◌≢◌, [], length};
ghost use Rattle.reo_handles.specs.Statuses.{number_of, words_of};
ghost use Rattle.reo_handles.specs.Texts.{laid};
ghost use Rattle.reo_handles.specs.declared.status.CallStatus.{CallStatus as AStatus};

use crate::texts::lay;

/// The words of a number, or no bytes where none is answered so.
fn words(number: u32) -> &'static [u8]
    ensures told { (status : AStatus) → number ≡ number_of status → result.now ≡ words_of status }
    ensures none { ((status : AStatus) → number ≢ number_of status) → result.now ≡ [] }
{
    match number {
        0 => b"done",
        1 => b"nothing is open",
        2 => b"no circuit",
        3 => b"too long",
        4 => b"no port",
        5 => b"wrong way",
        6 => b"pending",
        8 => b"no item",
        9 => b"not pending",
        10 => b"wide",
        11 => b"spent",
        12 => b"large budget",
        13 => b"no round",
        14 => b"no move",
        15 => b"no memory",
        _ => b"",
    }
}

/// Lays the words of a number that a call answered into a room, as far as they fit, and answers how
/// long they are; 0 where no call answers so.
pub fn lay_words(number: u32, room: &mut [u8]) -> usize
    ensures length { (status : AStatus) → number ≡ number_of status
        → result ≡ length (words_of status) }
    ensures laid { (status : AStatus) → number ≡ number_of status
        → room.new ≡ laid (words_of status) room.old }
    ensures none { ((status : AStatus) → number ≢ number_of status)
        → (result ≡ 0) × (room.new ≡ room.old) }
{
    lay(room, words(number))
}
