//! Texts that are told whole, since no place is live in their rounds.
use crate::proving_tests::checks::is;
use crate::proving_tests::works::{ONE, Work, open_sink, prove_work};
use reo_trace::Ending;
use std::alloc::Global;
use std::test::Fail;

/// A work, its text, and its ending.
struct Case {
    work: Work,
    text: &'static str,
    ending: Ending,
}

const CASES: &[Case] = &[
    Case {
        work: ONE,
        text: "round 1: a!3 b?3 | 0 0 0\nproved\ndone after 1 rounds\n",
        ending: Ending::Done { rounds: 1 },
    },
    // no component, no round
    Case {
        work: Work {
            circuit: "connector main() { }",
            script: "",
            budget: 1,
            rounds: 1,
        },
        text: "done after 0 rounds\n",
        ending: Ending::Done { rounds: 0 },
    },
    // the limit stands in place of the second round
    Case {
        work: Work {
            circuit: "connector main(in a: int 0..9, out b: int 0..9) { sync a b; }",
            script: "component p { write a 3; write a 4; } component q { repeat 2 { take b; } }",
            budget: 100_000,
            rounds: 1,
        },
        text: "round 1: a!3 b?3 | 0 0 0\nproved\nlimit after 1 rounds\n",
        ending: Ending::Limit { rounds: 1 },
    },
    // the loop joint has five supported values
    Case {
        work: Work {
            circuit: "connector main(in a: int 0..9) { syncdrain a a; }",
            script: "component p { write a 1; }",
            budget: 4,
            rounds: 1,
        },
        text: "spent in round 1: knot 0 weight 5 budget 4\n",
        ending: Ending::Spent {
            round: 1,
            knot: 0,
            weight: 5,
            budget: 4,
        },
    },
    Case {
        work: Work {
            circuit: "connector main(in a: int 0..9) { syncdrain a a; }",
            script: "component p { write a 1; }",
            budget: 5,
            rounds: 1,
        },
        text: "round 1: a!1 | 0 0 0\nproved\ndone after 1 rounds\n",
        ending: Ending::Done { rounds: 1 },
    },
];

/// Whether the run of a work has this ending, and its text is this.
fn is_this(alloc: Global, case: &Case) -> Result<bool, Fail> {
    let mut sink = open_sink(alloc)?;
    let answer = prove_work(alloc, &case.work, &mut sink)?;
    Ok(answer == Some(Ok(case.ending)) && sink.bytes() == case.text.as_bytes())
}

#[test]
fn texts_are_these(rt: HostRuntime) -> Result<(), Fail> {
    for case in CASES {
        is(&rt, is_this(rt.alloc(), case)?, case.text);
    }
    Ok(())
}
