//! The drawing command.
ghost use Rattle.std.specs.Prelude.{◌≡◌, [], slice_index_or};
ghost use Rattle.reo_command.specs.States.{files_change, sink_change};
ghost use Rattle.reo_command.specs.Statuses.{IsAmong};
ghost use Rattle.reo_command.specs.top_base.Cases.{IsFair, TellsFaults};
ghost use Rattle.reo_draw_command.specs.Answers.{Answered};
ghost use Rattle.reo_draw_command.specs.DrawStatuses.{statuses_for};
ghost use Rattle.reo_draw_command.specs.Words.{drawing_of};

use crate::circuit::draw_circuit;
use crate::round::draw_round;
use crate::table::draw_table;
use crate::words::{Drawing, drawing_of};
use reo_command::{Status, WORDS_REFUSED, answer};
use reo_io::{Files, Sink};
use reo_values::{Bytes, List};
use std::alloc::Global;

/// One of the words, or the empty word.
fn word_at(words: &[Bytes], place: usize) -> &[u8]
    ensures { result.now ≡ slice_index_or words.now place [] }
{
    match words.get(place) {
        Some(word) => word.as_slice(),
        None => b"",
    }
}

/// The whole drawing command: its words and its files to bytes on the sink, and its status.
pub fn draw<F: Files, S: Sink>(
    alloc: Global,
    words: &List<Bytes>,
    files: &mut F,
    out: &mut S,
) -> Status
    ensures answer { Answered words.now
        (files_change F.told F.failed F.given F.long F.fetches files.old files.new)
        (sink_change S.told S.faults out.old out.new) result.code }
    ensures status { IsAmong (statuses_for (drawing_of words.now)) result.code }
    ensures fair { IsFair (sink_change S.told S.faults out.old out.new) result.code }
    ensures tells { TellsFaults (sink_change S.told S.faults out.old out.new) result.code }
{
    let words = words.as_slice();
    match drawing_of(words) {
        Some(Drawing::Circuit) => draw_circuit(alloc, word_at(words, 0), files, out),
        Some(Drawing::Table) => {
            let circuit = word_at(words, 0);
            let script = word_at(words, 1);
            draw_table(alloc, circuit, script, word_at(words, 2), files, out)
        }
        Some(Drawing::Round) => {
            let circuit = word_at(words, 0);
            let script = word_at(words, 1);
            let trace = word_at(words, 2);
            draw_round(alloc, circuit, script, trace, word_at(words, 3), files, out)
        }
        None => answer(b"words refused\n", WORDS_REFUSED, out),
    }
}
