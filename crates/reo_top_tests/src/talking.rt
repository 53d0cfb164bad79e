//! Events from sources that fail, and answers to sinks that do.
use crate::checks::is;
use crate::objects::{GIVE, memory_files, memory_sink, memory_source, words_of};
use reo_top::reo;
use reo_values::NoMemory;
use std::alloc::Global;
use std::test::Fail;

const HUNDRED: &str = "connector main(in a: int 0..99, out b: int 0..99) { sync a b; }";

/// Of 39 bytes, twelve in the first line.
const EVENTS: &str = "write a 100\nwrite a 7\ntake b\nround\nend\n";

const ANSWERS: &str = "line 1: outside\nround 1: a!7 b?7 | 0 0 0\nend after 1 rounds\n";

/// The fetch, the take and the put that fail, the room of the sink, the status, what the sink has
/// got, and how many bytes the source still has. The source gives a byte a take.
struct Talk {
    fetch: u64,
    take: u64,
    put: u64,
    room: usize,
    status: u8,
    text: &'static str,
    left: usize,
}

const TALKS: &[Talk] = &[
    Talk {
        fetch: 0,
        take: 0,
        put: 0,
        room: 99,
        status: 0,
        text: ANSWERS,
        left: 0,
    },
    // nothing is taken for a circuit that cannot be had
    Talk {
        fetch: 1,
        take: 1,
        put: 0,
        room: 99,
        status: 3,
        text: "read fault circuit\n",
        left: 39,
    },
    Talk {
        fetch: 0,
        take: 1,
        put: 0,
        room: 99,
        status: 3,
        text: "read fault events\n",
        left: 39,
    },
    Talk {
        fetch: 0,
        take: 2,
        put: 0,
        room: 99,
        status: 3,
        text: "read fault events\n",
        left: 38,
    },
    // the answers to the lines before stand before it
    Talk {
        fetch: 0,
        take: 13,
        put: 0,
        room: 99,
        status: 3,
        text: "line 1: outside\nread fault events\n",
        left: 27,
    },
    // behind `end` nothing is taken
    Talk {
        fetch: 0,
        take: 40,
        put: 0,
        room: 99,
        status: 0,
        text: ANSWERS,
        left: 0,
    },
    // a sink that fails at its first call: the lines behind the first are not taken
    Talk {
        fetch: 0,
        take: 0,
        put: 1,
        room: 99,
        status: 9,
        text: "",
        left: 27,
    },
    // a sink that is full, at an answer and at the line of a take that failed
    Talk {
        fetch: 0,
        take: 0,
        put: 0,
        room: 21,
        status: 9,
        text: "line 1: outside\nround",
        left: 4,
    },
    Talk {
        fetch: 0,
        take: 2,
        put: 0,
        room: 4,
        status: 9,
        text: "read",
        left: 38,
    },
];

fn is_answered(alloc: Global, talk: &Talk) -> Result<bool, NoMemory> {
    let words = words_of(alloc, "live C")?;
    let mut files = memory_files(alloc, HUNDRED, GIVE, talk.fetch)?;
    let mut source = memory_source(alloc, EVENTS, talk.take)?;
    let mut sink = memory_sink(alloc, talk.room, 7, talk.put)?;
    let status = reo(alloc, &words, &mut files, &mut source, &mut sink).code;
    let told = sink.bytes() == talk.text.as_bytes();
    Ok(status == talk.status && told && source.left().len() == talk.left)
}

#[test]
fn failing_takes_and_puts(rt: HostRuntime) -> Result<(), Fail> {
    let alloc = rt.alloc();
    for talk in TALKS {
        is(&rt, is_answered(alloc, talk)?, talk.text);
    }
    Ok(())
}
