//! Lines around the most bytes of a line.
use crate::live_tests::cases::{Case, NUMBER, is_fed, is_heard};
use crate::live_tests::checks::is;
use crate::live_tests::talking::Cut;
use reo_values::{Bytes, NoMemory};
use std::alloc::Global;
use std::test::Fail;

/// So many blanks and then these bytes, and the answers.
const LINES: &[(usize, &str, &str)] = &[
    (65_536, "\n", "end after 0 rounds\n"),
    (65_537, "\n", "line 1: long\nend after 0 rounds\n"),
    (65_536, "", "end after 0 rounds\n"),
    (65_537, "", "line 1: long\nend after 0 rounds\n"),
    // a carriage return counts
    (65_535, "\r\n", "end after 0 rounds\n"),
    (65_536, "\r\n", "line 1: long\nend after 0 rounds\n"),
    // an event at the end of a line
    (
        65_531,
        "round\n",
        "round 1: idle | 0 0 1\nend after 1 rounds\n",
    ),
    (65_532, "round\n", "line 1: long\nend after 0 rounds\n"),
    (65_533, "end", "end after 0 rounds\n"),
    (65_534, "end", "line 1: long\nend after 0 rounds\n"),
    // a long line is over with its line feed
    (
        131_072,
        "round\nround\nend\n",
        "line 1: long\nround 1: idle | 0 0 1\nend after 1 rounds\n",
    ),
];

fn blanks_and(alloc: Global, blanks: usize, end: &str) -> Result<Bytes, NoMemory> {
    let mut text = Bytes::new(alloc);
    for _ in 0..blanks {
        text.push(b' ')?;
    }
    text.append(end.as_bytes())?;
    Ok(text)
}

/// Where the bytes are cut first, and the size of the other pieces.
const CUTS: &[(usize, usize)] = &[
    (0, 200_000),
    (1, 65_536),
    (65_535, 1),
    (65_536, 1),
    (65_537, 1_000),
    (1_000, 7),
];

fn is_cut(alloc: Global, case: Case<'_>) -> Result<bool, NoMemory> {
    let mut all = is_heard(alloc, case, 1_000)? && is_heard(alloc, case, 200_000)?;
    for (first, others) in CUTS {
        let cut = Cut {
            first: *first,
            others: *others,
        };
        all = all && is_fed(alloc, case, cut)?;
    }
    Ok(all)
}

fn is_answered(alloc: Global, blanks: usize, end: &str, answers: &str) -> Result<bool, NoMemory> {
    let events = blanks_and(alloc, blanks, end)?;
    let case = Case {
        talk: NUMBER,
        events: events.as_slice(),
        answers: answers.as_bytes(),
        stop: None,
    };
    is_cut(alloc, case)
}

#[test]
fn lines_of_more_than_65536_bytes_are_refused(rt: HostRuntime) -> Result<(), Fail> {
    for (blanks, end, answers) in LINES {
        let right = is_answered(rt.alloc(), *blanks, end, answers)?;
        is(&rt, right, "{blanks} blanks");
    }
    Ok(())
}
