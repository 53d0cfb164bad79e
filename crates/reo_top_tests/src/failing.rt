//! Fetches and sinks that fail.
use crate::checks::is;
use crate::objects::{GIVE, GIVEN, ONE, PROVED, empty_source, memory_files, memory_sink, words_of};
use reo_io::{MemoryFiles, MemorySink};
use reo_top::reo;
use reo_values::NoMemory;
use std::alloc::Global;
use std::test::Fail;

/// The status of the command over these files and this sink.
fn status_of(
    alloc: Global,
    line: &str,
    files: &mut MemoryFiles,
    sink: &mut MemorySink,
) -> Result<u8, NoMemory> {
    let words = words_of(alloc, line)?;
    let mut source = empty_source(alloc)?;
    Ok(reo(alloc, &words, files, &mut source, sink).code)
}

/// A command, its circuit, the fetch that fails, the room of the sink, the status, and what the
/// sink has got.
struct Case {
    words: &'static str,
    circuit: &'static str,
    fetch: u64,
    room: usize,
    status: u8,
    text: &'static str,
}

const CASES: &[Case] = &[
    Case {
        words: "run C S",
        circuit: ONE,
        fetch: 0,
        room: 99,
        status: 0,
        text: GIVEN,
    },
    // the first fetch is that of the circuit, the second that of the script
    Case {
        words: "run C S",
        circuit: ONE,
        fetch: 1,
        room: 99,
        status: 3,
        text: "read fault circuit\n",
    },
    Case {
        words: "run C S",
        circuit: ONE,
        fetch: 2,
        room: 99,
        status: 3,
        text: "read fault script\n",
    },
    // a circuit is refused before its script is fetched
    Case {
        words: "run C S",
        circuit: "connector",
        fetch: 2,
        room: 99,
        status: 5,
        text: "circuit refused: line 1: syntax\n",
    },
    Case {
        words: "print C",
        circuit: ONE,
        fetch: 1,
        room: 99,
        status: 3,
        text: "read fault circuit\n",
    },
    Case {
        words: "check C",
        circuit: ONE,
        fetch: 0,
        room: 99,
        status: 0,
        text: "0 writer a\n1 taker b\n2 sync a b\naccepted: 3 primitives, 2 joints\n",
    },
    Case {
        words: "check C",
        circuit: ONE,
        fetch: 1,
        room: 99,
        status: 3,
        text: "read fault circuit\n",
    },
    // a sink that fails has got a front, and its failure is the status
    Case {
        words: "check C",
        circuit: ONE,
        fetch: 0,
        room: 9,
        status: 9,
        text: "0 writer ",
    },
    Case {
        words: "run C S",
        circuit: ONE,
        fetch: 0,
        room: 10,
        status: 9,
        text: "round 1: a",
    },
    Case {
        words: "run C S",
        circuit: ONE,
        fetch: 1,
        room: 4,
        status: 9,
        text: "read",
    },
    Case {
        words: "print C",
        circuit: ONE,
        fetch: 0,
        room: 9,
        status: 9,
        text: "connector",
    },
    // made work is not fetched
    Case {
        words: "bench 1",
        circuit: ONE,
        fetch: 1,
        room: 99,
        status: 0,
        text: "bench 1: 16 primitives, 22 rounds, 20 written, 20 delivered, stuck\n",
    },
    Case {
        words: "bench 1",
        circuit: ONE,
        fetch: 0,
        room: 8,
        status: 9,
        text: "bench 1:",
    },
    Case {
        words: "list C",
        circuit: ONE,
        fetch: 0,
        room: 99,
        status: 0,
        text: "part 0: a b\nFF\nGG\nGR\nRG\nlisted 1 parts, 4 rows\n",
    },
    Case {
        words: "list C",
        circuit: ONE,
        fetch: 1,
        room: 99,
        status: 3,
        text: "read fault circuit\n",
    },
    // nothing is written before all tables are found
    Case {
        words: "list C",
        circuit: ONE,
        fetch: 0,
        room: 9,
        status: 9,
        text: "part 0: a",
    },
    Case {
        words: "prove C S",
        circuit: ONE,
        fetch: 0,
        room: 99,
        status: 0,
        text: PROVED,
    },
    Case {
        words: "prove C S",
        circuit: ONE,
        fetch: 2,
        room: 99,
        status: 3,
        text: "read fault script\n",
    },
    Case {
        words: "prove C S",
        circuit: ONE,
        fetch: 0,
        room: 30,
        status: 9,
        text: "round 1: a!3 b?3 | 0 0 0\nprove",
    },
    // the third fetch is that of the proof
    Case {
        words: "verify-proof C S P",
        circuit: ONE,
        fetch: 0,
        room: 99,
        status: 0,
        text: "proved 1 rounds\n",
    },
    Case {
        words: "verify-proof C S P",
        circuit: ONE,
        fetch: 2,
        room: 99,
        status: 3,
        text: "read fault script\n",
    },
    Case {
        words: "verify-proof C S P",
        circuit: ONE,
        fetch: 3,
        room: 99,
        status: 3,
        text: "read fault proof\n",
    },
    Case {
        words: "verify-proof C S P",
        circuit: ONE,
        fetch: 0,
        room: 6,
        status: 9,
        text: "proved",
    },
    Case {
        words: "walk C S",
        circuit: ONE,
        fetch: 0,
        room: 5,
        status: 9,
        text: "words",
    },
];

fn is_answered(alloc: Global, case: &Case) -> Result<bool, NoMemory> {
    let mut files = memory_files(alloc, case.circuit, GIVE, case.fetch)?;
    let mut sink = memory_sink(alloc, case.room, 7, 0)?;
    let status = status_of(alloc, case.words, &mut files, &mut sink)?;
    Ok(status == case.status && sink.bytes() == case.text.as_bytes())
}

#[test]
fn failing_fetches_and_full_sinks(rt: HostRuntime) -> Result<(), Fail> {
    let alloc = rt.alloc();
    for case in CASES {
        is(&rt, is_answered(alloc, case)?, case.text);
    }
    Ok(())
}

/// Whether a command whose sink takes a byte a call, and fails at this call, has this status, and
/// the sink this text.
fn breaks_at(
    alloc: Global,
    words: &str,
    put: u64,
    status: u8,
    text: &[u8],
) -> Result<bool, NoMemory> {
    let mut files = memory_files(alloc, ONE, GIVE, 0)?;
    let mut sink = memory_sink(alloc, 99, 1, put)?;
    let code = status_of(alloc, words, &mut files, &mut sink)?;
    Ok(code == status && sink.bytes() == text)
}

/// Whether a command that writes this text has got a front of it on a sink that fails, at each call
/// in turn.
fn has_fronts(alloc: Global, words: &str, text: &str) -> Result<bool, NoMemory> {
    let mut put = 1;
    for (kept, _) in text.as_bytes().iter().enumerate() {
        let (front, _) = text.as_bytes().split_at(kept);
        if !breaks_at(alloc, words, put, 9, front)? {
            return Ok(false);
        }
        put = put.wrapping_add(1);
    }
    breaks_at(alloc, words, put, 0, text.as_bytes())
}

#[test]
fn a_failing_sink_has_a_front(rt: HostRuntime) -> Result<(), Fail> {
    let alloc = rt.alloc();
    is(&rt, has_fronts(alloc, "run C S", GIVEN)?, GIVEN);
    is(&rt, has_fronts(alloc, "prove C S", PROVED)?, PROVED);
    Ok(())
}
