//! What circuits are told and what they answer, in whatever pieces.
use crate::live_tests::checks::is;
use crate::live_tests::objects::{sink_of, source_of};
use crate::live_tests::talking::{Cut, Talk, fed, heard};
use reo_live::{Heard, LiveFault};
use reo_values::NoMemory;
use std::alloc::Global;
use std::test::Fail;

/// Events, the answers to them, and why a round could not be planned.
#[derive(Clone, Copy)]
pub struct Case<'a> {
    pub talk: Talk<'a>,
    pub events: &'a [u8],
    pub answers: &'a [u8],
    pub stop: Option<LiveFault>,
}

/// Whether the events come to their answers in pieces that are fed.
pub fn is_fed(alloc: Global, case: Case<'_>, cut: Cut) -> Result<bool, NoMemory> {
    let mut sink = sink_of(alloc, case.answers.len(), 9, 0)?;
    let came = match fed(alloc, case.talk, case.events, cut, &mut sink) {
        Some(Ok(())) => case.stop.is_none(),
        Some(Err(fault)) => case.stop == Some(fault),
        None => false,
    };
    Ok(came && sink.bytes() == case.answers)
}

/// How hearing ends.
fn heard_of(case: Case<'_>) -> Heard {
    match case.stop {
        None => Heard::Ended,
        Some(_) => Heard::Stopped,
    }
}

/// Whether they do in pieces of a size that are taken from a source.
pub fn is_heard(alloc: Global, case: Case<'_>, size: usize) -> Result<bool, NoMemory> {
    let mut source = source_of(alloc, case.events, size, 0)?;
    let mut sink = sink_of(alloc, case.answers.len(), 9, 0)?;
    let came = heard(alloc, case.talk, &mut source, &mut sink);
    Ok(came == Some(heard_of(case)) && sink.bytes() == case.answers)
}

/// Whether they do however they are cut: in two anywhere, and in pieces of each size.
fn is_answered(alloc: Global, case: Case<'_>) -> Result<bool, NoMemory> {
    let most = case.events.len();
    let mut all = is_fed(
        alloc,
        case,
        Cut {
            first: most,
            others: 1,
        },
    )?;
    for first in 0..most {
        all = all
            && is_fed(
                alloc,
                case,
                Cut {
                    first,
                    others: most,
                },
            )?
            && is_fed(alloc, case, Cut { first, others: 1 })?
            && is_heard(alloc, case, first)?;
    }
    Ok(all && is_heard(alloc, case, most)?)
}

const DIGIT: Talk<'static> = Talk {
    circuit: b"connector main(in a: int 0..9, out b: int 0..9) { sync a b; }",
    budget: 100_000,
};

pub const NUMBER: Talk<'static> = Talk {
    circuit: b"connector main(in a: int 0..99, out b: int 0..99) { sync a b; }",
    budget: 100_000,
};

/// A drain from a port to itself, whose part weighs 5 once an item is pending.
const DRAIN: &[u8] = b"connector main(in a: int 0..9) { syncdrain a a; }";

/// A write outside the type of its port, and one that flows.
pub const OUTSIDE: Case<'static> = Case {
    talk: NUMBER,
    events: b"write a 100\nwrite a 7\ntake b\nround\nend\n",
    answers: b"line 1: outside\nround 1: a!7 b?7 | 0 0 0\nend after 1 rounds\n",
    stop: None,
};

/// Lines that are refused, each for another cause, and an end of the input.
pub const REFUSED: Case<'static> = Case {
    talk: DIGIT,
    events: b"take a\nwrite b 1\nwrite z 1\nwrite a x\nwithdraw a\nwrite a 1\nwrite a 99\nhello\n\
round\n",
    answers: b"line 1: way\nline 2: way\nline 3: port\nline 4: outside\nline 5: none\n\
line 7: pending\nline 8: form\nround 1: idle | 1 0 2\nend after 1 rounds\n",
    stop: None,
};

/// The other cases, each on the first circuit.
const CASES: &[(&[u8], &[u8])] = &[
    (b"", b"end after 0 rounds\n"),
    (b"end", b"end after 0 rounds\n"),
    // nothing is judged behind the event `end`, not even in the same piece
    (b"end\nround\nhello\nend\n", b"end after 0 rounds\n"),
    (b"\n\n\nhello\n", b"line 4: form\nend after 0 rounds\n"),
    // a last line without a line feed
    (b"round", b"round 1: idle | 0 0 1\nend after 1 rounds\n"),
    (
        b"round\nhello",
        b"round 1: idle | 0 0 1\nline 2: form\nend after 1 rounds\n",
    ),
    (b"hello\nend", b"line 1: form\nend after 0 rounds\n"),
    // carriage returns at the end of a line and elsewhere
    (
        b"round\r\nend\r\n",
        b"round 1: idle | 0 0 1\nend after 1 rounds\n",
    ),
    (
        b"round\r\r\n\r\n\r",
        b"round 1: idle | 0 0 1\nend after 1 rounds\n",
    ),
    (
        b"ro\rund\nround\r",
        b"line 1: form\nround 1: idle | 0 0 1\nend after 1 rounds\n",
    ),
    // lines without tokens, and lines with tokens too many, too few and none of the grammar
    (
        b" \t\n# round\nround # end\n",
        b"round 1: idle | 0 0 1\nend after 1 rounds\n",
    ),
    (
        b"$\nwrite a 1;\nwrite a\nrounds\nround round\n\"\n",
        b"line 1: form\nline 2: form\nline 3: form\nline 4: form\nline 5: form\nline 6: form\n\
end after 0 rounds\n",
    ),
    // offers that are pending, taken back and gone
    (
        b"take b\ntake b\nwithdraw b\nwithdraw b\nwithdraw z\ntake z\ntake b\nwrite a 3\nround\n\
withdraw a\nround\nend\n",
        b"line 2: pending\nline 4: none\nline 5: port\nline 6: port\nround 1: a!3 b?3 | 0 0 0\n\
line 10: none\nround 2: idle | 0 0 1\nend after 2 rounds\n",
    ),
    // a refused line changes nothing
    (
        b"write a 4\nwrite a 5\nwrite a x\nwrite b 6\nwrite c 7\ntake b\nround\n",
        b"line 2: pending\nline 3: pending\nline 4: way\nline 5: port\n\
round 1: a!4 b?4 | 0 0 0\nend after 1 rounds\n",
    ),
];

/// A part whose weight is the budget, and one whose weight is above it.
const WEIGHED: &[(u32, &[u8], &[u8], Option<LiveFault>)] = &[
    (
        5,
        b"write a 1\nround\nend\n",
        b"round 1: a!1 | 0 0 0\nend after 1 rounds\n",
        None,
    ),
    (
        4,
        b"write a 1\nround\nround\nhello\nend\n",
        b"spent in round 1: knot 0 weight 5 budget 4\n",
        Some(LiveFault::Spent { knot: 0, weight: 5 }),
    ),
    // a last line without a line feed
    (
        4,
        b"hello\nwrite a 1\nround",
        b"line 1: form\nspent in round 1: knot 0 weight 5 budget 4\n",
        Some(LiveFault::Spent { knot: 0, weight: 5 }),
    ),
];

fn line_of(case: Case<'_>) -> &str {
    str::from_utf8(case.events).unwrap_or("")
}

#[test]
fn events_are_answered_however_they_are_cut(rt: HostRuntime) -> Result<(), Fail> {
    let alloc = rt.alloc();
    is(&rt, is_answered(alloc, OUTSIDE)?, "outside");
    is(&rt, is_answered(alloc, REFUSED)?, "refused");
    for (events, answers) in CASES {
        let case = Case {
            talk: DIGIT,
            events,
            answers,
            stop: None,
        };
        is(&rt, is_answered(alloc, case)?, line_of(case));
    }
    for (budget, events, answers, stop) in WEIGHED {
        let talk = Talk {
            circuit: DRAIN,
            budget: *budget,
        };
        let case = Case {
            talk,
            events,
            answers,
            stop: *stop,
        };
        is(&rt, is_answered(alloc, case)?, line_of(case));
    }
    Ok(())
}
