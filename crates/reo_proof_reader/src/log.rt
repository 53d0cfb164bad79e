//! The log of a round.
ghost use Rattle.std.specs.Prelude.{◌≡◌, ◌<◌, ◌^◌, ℕ, List, length, MatchResult};
ghost use Rattle.reo_proof_reader.specs.Reads.{IsLogTaken, IsUnfinished};

use crate::reader::ProofReader;

/// A log, and how many lines it has.
#[derive(Drop)]
pub(crate) struct Log<'a> {
    pub(crate) text: &'a [u8],
    pub(crate) lines: u64,
}

/// Takes the lines of a log, and the line `proved` that ends it.
///
/// # Errors
///
/// No such line follows: how many lines there are that end with a line feed.
pub(crate) fn take_log<'a>(reader: &mut ProofReader<'a>) -> Result<Log<'a>, u64>
    ensures { MatchResult result
        (λ log. IsLogTaken reader.old reader.new log.text.now log.lines)
        (IsUnfinished reader.old) }
{
    let whole = reader.left();
    let _length = whole.len();
    let mut lines = 0;
    let mut size = 0;
    while let Some(line) = reader.line() {
        if line == b"proved".as_slice() {
            let text = &whole[..size];
            return Ok(Log { text, lines });
        }
        lines += 1;
        size += line.len() + 1;
    }
    Err(lines)
}
