//! Texts with logs, of which the first lines and the last are told.
use crate::proving_tests::checks::is;
use crate::proving_tests::works::{HALF, ONE, TURNS, Work, open_sink, prove_work};
use reo_trace::Ending;
use std::alloc::Global;
use std::test::Fail;

/// A work, what its text begins and ends with, and its ending.
struct Case {
    work: Work,
    begins: &'static str,
    ends: &'static str,
    ending: Ending,
}

const CASES: &[Case] = &[
    Case {
        work: ONE,
        begins: "round 1: a!3 b?3 | 0 0 0\nproved\n",
        ends: "proved\ndone after 1 rounds\n",
        ending: Ending::Done { rounds: 1 },
    },
    // the rows of the first port, of the drain and of the drain's class let smaller ones be
    Case {
        work: HALF,
        begins: "round 1: idle | 1 0 2\nat 0\n",
        ends: "proved\nstuck after 1 rounds\n",
        ending: Ending::Stuck { rounds: 1 },
    },
    Case {
        work: TURNS,
        begins: "round 1: a!1 | 0 1 1 1 0.0 0.0 1.0 1.0 0 2 2 2 0 1 1 1\nat ",
        ends: "proved\ndone after 40 rounds\n",
        ending: Ending::Done { rounds: 40 },
    },
];

/// Whether the run of a work has this ending, and its text begins and ends so.
fn is_shown(alloc: Global, case: &Case) -> Result<bool, Fail> {
    let mut sink = open_sink(alloc)?;
    let answer = prove_work(alloc, &case.work, &mut sink)?;
    let begins = sink.bytes().starts_with(case.begins.as_bytes());
    let ends = sink.bytes().ends_with(case.ends.as_bytes());
    Ok(begins && ends && answer == Some(Ok(case.ending)))
}

#[test]
fn texts_begin_and_end_with_these(rt: HostRuntime) -> Result<(), Fail> {
    for case in CASES {
        is(&rt, is_shown(rt.alloc(), case)?, case.begins);
    }
    Ok(())
}
