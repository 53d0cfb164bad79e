//! What verdicts say of a round.
ghost use Rattle.std.specs.Prelude.{◌≡◌, ◌++◌, [], OnOk};
ghost use Rattle.reo_proof_texts.specs.verdict_words.Words.{wrong_words, in_round};

use crate::verdict_words::numbers::append_numbered;
use reo_checker::Wrong;
use reo_values::{Bytes, NoMemory};
use std::alloc::Global;

/// Adds what is wrong with the entries of a round. `NoMemory` is out of memory.
pub fn append_wrong(
    alloc: Global,
    line: &mut Bytes,
    wrong: Wrong,
    node: &[u8],
) -> Result<(), NoMemory>
    ensures { OnOk result (line.new ≡ line.old ++ wrong_words wrong node.now) }
{
    match wrong {
        Wrong::Count => line.append(b"count"),
        Wrong::Row { primitive } => append_numbered(alloc, line, b"row ", primitive as u64),
        Wrong::Joint { joint } => {
            append_numbered(alloc, line, b"joint ", joint as u64)?;
            line.append(b" at ")?;
            line.append(node)
        }
        Wrong::Item { joint } => {
            append_numbered(alloc, line, b"item ", joint as u64)?;
            line.append(b" at ")?;
            line.append(node)
        }
    }
}

/// Adds the round that a cause is in. `NoMemory` is out of memory.
pub fn append_round(alloc: Global, line: &mut Bytes, round: u64) -> Result<(), NoMemory>
    ensures { OnOk result (line.new ≡ line.old ++ in_round round []) }
{
    append_numbered(alloc, line, b"round ", round)?;
    line.append(b": ")
}
