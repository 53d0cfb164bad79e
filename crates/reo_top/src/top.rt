//! The top call.
ghost use Rattle.reo_top.specs.Answers.{Answered, IsHonest, KeepsInputs};
ghost use Rattle.reo_top.specs.Comes.{ComesTo};
ghost use Rattle.reo_top.specs.Complete.{Complete};
ghost use Rattle.reo_top.specs.Headline.{Headline};
ghost use Rattle.reo_live.specs.closings.Sources.{source_change};
ghost use Rattle.reo_command.specs.States.{files_change, sink_change};

use crate::checking::check_circuit;
use crate::hearing::hear_events;
use crate::measuring::measure_work;
use crate::printing::{print_circuit, upgrade_circuit};
use crate::runs::{prove_circuit, run_circuit};
use crate::tables::list_circuit;
use crate::verdicts::{verify_claim, verify_proof_claim};
use reo_circuit_texts::circuit_names_are_plain;
use reo_command::{Request, Status, WORDS_REFUSED, answer, request_of};
use reo_flat::circuits_are_made;
use reo_io::{Files, Sink, Source};
use reo_kinds::Kind;
use reo_runs::runs_are_justified;
use reo_values::{Bytes, List};
use std::alloc::Global;

/// What words come to: what they ask of a command is done, or they are refused.
fn come_to<F: Files, R: Source, S: Sink>(
    alloc: Global,
    words: &[Bytes],
    files: &mut F,
    source: &mut R,
    out: &mut S,
) -> Status
    ensures { let files = files_change F.told F.failed F.given F.long F.fetches
        files.old files.new in
        let heard = source_change R.told R.given R.ends R.faults source.old source.new in
        let sink = sink_change S.told S.faults out.old out.new in
        ComesTo words.now files heard source.old source.new sink result.code }
{
    let Some(request) = request_of(words) else {
        return answer(b"words refused\n", WORDS_REFUSED, out);
    };
    match request {
        Request::Run {
            circuit,
            script,
            limits,
        } => run_circuit(alloc, circuit, script, limits, files, out),
        Request::Check { circuit } => check_circuit(alloc, circuit, files, out),
        Request::Print { circuit } => print_circuit(alloc, circuit, files, out),
        Request::Upgrade { circuit } => upgrade_circuit(alloc, circuit, files, out),
        Request::Verify {
            circuit,
            script,
            trace,
        } => verify_claim(alloc, circuit, script, trace, files, out),
        Request::Bench { size } => measure_work(alloc, size, out),
        Request::Live { circuit, budget } => {
            hear_events(alloc, circuit, budget, files, source, out)
        }
        Request::Tables { circuit } => list_circuit(alloc, circuit, files, out),
        Request::Prove { circuit, script } => prove_circuit(alloc, circuit, script, files, out),
        Request::VerifyProof {
            circuit,
            script,
            proof,
        } => verify_proof_claim(alloc, circuit, script, proof, files, out),
    }
}

/// The whole command: its words, its files and the events of its source to bytes on the sink, and
/// its status.
///
/// The headline: for every circuit and script that are accepted the bytes written are a trace
/// whose every round is the first colouring, is idle only where no colouring flows, and jams only
/// what has no three-colouring, up to the ending of the run. Else a fetch failed, the sink failed
/// or memory ran out, and the status says so. Where nothing failed, the whole trace was written,
/// with the status of its ending, or memory ran out. Where the sink's count of faults rose, the
/// status is that of a failed sink, or that of memory that ran out.
pub fn reo<F: Files, R: Source, S: Sink>(
    alloc: Global,
    words: &List<Bytes>,
    files: &mut F,
    source: &mut R,
    out: &mut S,
) -> Status
    ensures headline { let files = files_change F.told F.failed F.given F.long F.fetches
        files.old files.new in
        Headline words.now files (sink_change S.told S.faults out.old out.new) result.code }
    ensures complete { let files = files_change F.told F.failed F.given F.long F.fetches
        files.old files.new in
        Complete words.now files (sink_change S.told S.faults out.old out.new) result.code }
    ensures answer { let files = files_change F.told F.failed F.given F.long F.fetches
        files.old files.new in
        let source = source_change R.told R.given R.ends R.faults source.old source.new in
        let sink = sink_change S.told S.faults out.old out.new in
        Answered words.now files source sink result.code }
    ensures honest { IsHonest words.now (sink_change S.told S.faults out.old out.new) result.code }
    ensures inputs { let files = files_change F.told F.failed F.given F.long F.fetches
        files.old files.new in
        KeepsInputs words.now files source.old source.new }
{
    circuits_are_made();
    circuit_names_are_plain();
    runs_are_justified::<Kind>();
    come_to(alloc, words.as_slice(), files, source, out)
}
