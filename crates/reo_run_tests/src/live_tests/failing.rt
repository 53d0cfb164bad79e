//! Sinks and sources that fail, and what is left in a source.
use crate::live_tests::cases::{Case, OUTSIDE, REFUSED};
use crate::live_tests::checks::is;
use crate::live_tests::objects::{sink_of, source_of};
use crate::live_tests::talking::{Cut, fed, heard};
use reo_live::{Heard, LiveFault};
use reo_values::NoMemory;
use std::alloc::Global;
use std::test::Fail;

/// Whether a sink that takes a byte a call, and fails at the call behind so many, has got as many
/// bytes of the answers, however the events come.
fn breaks_behind(alloc: Global, case: Case<'_>, bytes: usize) -> Result<bool, NoMemory> {
    let call = (bytes as u64).wrapping_add(1);
    let (front, _) = case.answers.split_at(bytes.min(case.answers.len()));
    let cut = Cut {
        first: bytes,
        others: 3,
    };
    let mut sink = sink_of(alloc, case.answers.len(), 1, call)?;
    let came = fed(alloc, case.talk, case.events, cut, &mut sink);
    let right = matches!(came, Some(Err(LiveFault::Failed))) && sink.bytes() == front;
    Ok(right && is_broken(alloc, case, call, front)?)
}

fn is_broken(alloc: Global, case: Case<'_>, call: u64, front: &[u8]) -> Result<bool, NoMemory> {
    let mut source = source_of(alloc, case.events, 5, 0)?;
    let mut sink = sink_of(alloc, case.answers.len(), 1, call)?;
    let came = heard(alloc, case.talk, &mut source, &mut sink);
    Ok(came == Some(Heard::Broken) && sink.bytes() == front)
}

#[test]
fn a_sink_that_fails_has_a_front_of_the_answers(rt: HostRuntime) -> Result<(), Fail> {
    for case in [OUTSIDE, REFUSED] {
        for bytes in 0..case.answers.len() {
            let right = breaks_behind(rt.alloc(), case, bytes)?;
            is(&rt, right, "{bytes} bytes");
        }
    }
    Ok(())
}

/// A source that gives a byte a take: the number of the take that fails, if one does; the room of
/// the sink; and how hearing ends, what is written, and what is left.
struct Take {
    fails: u64,
    room: usize,
    heard: Heard,
    answers: &'static str,
    left: &'static str,
}

/// The events of `OUTSIDE`.
const TAKES: &[Take] = &[
    Take {
        fails: 1,
        room: 99,
        heard: Heard::Missed,
        answers: "",
        left: "write a 100\nwrite a 7\ntake b\nround\nend\n",
    },
    Take {
        fails: 2,
        room: 99,
        heard: Heard::Missed,
        answers: "",
        left: "rite a 100\nwrite a 7\ntake b\nround\nend\n",
    },
    // behind the line feed of the first line
    Take {
        fails: 13,
        room: 99,
        heard: Heard::Missed,
        answers: "line 1: outside\n",
        left: "write a 7\ntake b\nround\nend\n",
    },
    Take {
        fails: 38,
        room: 99,
        heard: Heard::Missed,
        answers: "line 1: outside\nround 1: a!7 b?7 | 0 0 0\n",
        left: "d\n",
    },
    // behind the event `end` no byte is taken
    Take {
        fails: 40,
        room: 99,
        heard: Heard::Ended,
        answers: "line 1: outside\nround 1: a!7 b?7 | 0 0 0\nend after 1 rounds\n",
        left: "",
    },
    // a sink without room for the first answer, and with room for a part of the second
    Take {
        fails: 0,
        room: 0,
        heard: Heard::Broken,
        answers: "",
        left: "write a 7\ntake b\nround\nend\n",
    },
    Take {
        fails: 0,
        room: 20,
        heard: Heard::Broken,
        answers: "line 1: outside\nroun",
        left: "end\n",
    },
];

fn is_taken(alloc: Global, take: &Take) -> Result<bool, NoMemory> {
    let mut source = source_of(alloc, OUTSIDE.events, 1, take.fails)?;
    let mut sink = sink_of(alloc, take.room, 99, 0)?;
    let came = heard(alloc, OUTSIDE.talk, &mut source, &mut sink);
    Ok(
        came == Some(take.heard)
            && sink.bytes() == take.answers.as_bytes()
            && source.left() == take.left.as_bytes(),
    )
}

#[test]
fn bytes_are_left_in_a_source(rt: HostRuntime) -> Result<(), Fail> {
    for take in TAKES {
        is(&rt, is_taken(rt.alloc(), take)?, take.left);
    }
    Ok(())
}
