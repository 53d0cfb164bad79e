//! Proofs that the command has written, and its verdicts on them. Which log stands behind a round
//! is free; that it is accepted is not.
use crate::checks::is;
use crate::objects::{three_files, words_of};
use reo_io::{SureFiles, SureSink, SureSource};
use reo_top::reo;
use reo_values::{Bytes, List, NoMemory};
use std::alloc::Global;
use std::str;
use std::test::Fail;

/// The most bytes that a command writes here.
const MOST_WRITTEN: usize = 4_194_304;

/// A circuit, a script, the status of their run, and the verdict on its proof.
struct Case {
    circuit: &'static str,
    script: &'static str,
    status: u8,
    verdict: &'static str,
}

const CASES: &[Case] = &[
    Case {
        circuit: "connector main(in a: unit, in b: unit) { syncdrain a b; }",
        script: "component p { write a unit; }",
        status: 1,
        verdict: "proved 1 rounds\n",
    },
    // parts that jam, and one that flows
    Case {
        circuit: "connector main(in a: int 0..9, out b: int 0..9, in c: int 0..9, out d: int \
            0..9) { sync a b; sync a b; sync c d; }",
        script: "component p { write a 1; } component q { take b; } component r { write c 2; } \
            component s { take d; }",
        status: 1,
        verdict: "proved 2 rounds\n",
    },
    // an exclusive router
    Case {
        circuit: "connector main(in a: int 0..9, out b: int 0..9, out c: int 0..9) { node x: int \
            0..9; node y: int 0..9; node k: int 0..9; lossy a x; lossy a y; sync x b; sync x k; \
            sync y c; sync y k; syncdrain a k; }",
        script: "component p { write a 1; write a 2; write a 3; } component q { take b; } \
            component r { repeat 1 { take c; } }",
        status: 1,
        verdict: "proved 3 rounds\n",
    },
    // a sequencer
    Case {
        circuit: "connector main(in a: int 0..9, in b: int 0..9, in c: int 0..9, in d: int 0..9) \
            { node w: unit; node x: unit; node y: unit; node z: unit; fifo1 z w with unit; fifo1 \
            w x; fifo1 x y; fifo1 y z; syncdrain a w; syncdrain b x; syncdrain c y; syncdrain d \
            z; }",
        script: "component pa { repeat 10 { write a 1; } } component pb { repeat 10 { write b 1; \
            } } component pc { repeat 10 { write c 1; } } component pd { repeat 10 { write d 1; \
            } }",
        status: 0,
        verdict: "proved 40 rounds\n",
    },
];

/// What a command has written, and its status.
#[derive(Drop)]
struct Whole {
    text: Bytes,
    status: u8,
}

/// What the command has written of these files, and its status.
fn written_of(
    alloc: Global,
    words: &List<Bytes>,
    files: &mut SureFiles,
    source: &mut SureSource,
) -> Result<Whole, NoMemory> {
    let mut sink = SureSink::new(alloc, MOST_WRITTEN)?;
    let status = reo(alloc, words, files, source, &mut sink).code;
    let text = Bytes::from_slice(alloc, sink.bytes())?;
    Ok(Whole { text, status })
}

/// The command on a circuit, a script and a proof.
fn whole_of(alloc: Global, words: &str, case: &Case, proof: &str) -> Result<Whole, NoMemory> {
    let given = three_files(alloc, case.circuit, case.script, proof)?;
    let mut files = SureFiles::new(alloc, given)?;
    let mut source = SureSource::new(alloc, Bytes::new(alloc))?;
    written_of(alloc, &words_of(alloc, words)?, &mut files, &mut source)
}

/// Whether what `prove` writes of a case has its status, and `verify-proof` the verdict on it.
fn is_verified(alloc: Global, case: &Case) -> Result<bool, NoMemory> {
    let proved = whole_of(alloc, "prove C S", case, "")?;
    let Ok(proof) = str::from_utf8(proved.text.as_slice()) else {
        return Ok(false);
    };
    let verdict = whole_of(alloc, "verify-proof C S P", case, proof)?;
    let told = verdict.text.as_slice() == case.verdict.as_bytes();
    Ok(proved.status == case.status && verdict.status == 0 && told)
}

#[test]
fn written_proofs_are_verified(rt: HostRuntime) -> Result<(), Fail> {
    let alloc = rt.alloc();
    for case in CASES {
        is(&rt, is_verified(alloc, case)?, case.verdict);
    }
    Ok(())
}
