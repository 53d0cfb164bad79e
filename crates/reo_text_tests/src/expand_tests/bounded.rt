//! Texts under a megabyte whose expansions would be far larger than their counts: they are
//! answered at once, with want of memory. Others are expanded.
use crate::expand_tests::checks::is;
use crate::expand_tests::rows::{Answer, program_of, stands_for};
use reo_expand::expand;
use reo_values::{Bytes, NoMemory};
use std::alloc::Global;

/// A text that is made of three parts, the middle one so many times.
struct Repeated {
    front: &'static str,
    middle: &'static str,
    times: usize,
    end: &'static str,
}

/// Texts that want memory.
const TOO_LARGE: &[Repeated] = &[
    // A connector with 50,000 parameters, for 4,097 numbers.
    Repeated {
        front: "reo 2 connector e<n>(in a: unit",
        middle: ", in a: unit",
        times: 50_000,
        end: ") { } connector m() { for i = 0 to 4096 { use e<i>(); } }",
    },
    // A buffer with 400,000 literals, in 30,000 turns.
    Repeated {
        front: "reo 2 connector m() { for i = 1 to 30000 { fifo 9 a b with 1",
        middle: ",1",
        times: 400_000,
        end: "; } }",
    },
    // 40,000 connectors of one name, for 4,097 numbers.
    Repeated {
        front: "reo 2 ",
        middle: "connector c<n>(){} ",
        times: 40_000,
        end: "connector m() { for i = 0 to 4096 { use c<i>(); } }",
    },
    // 40,000 connectors of other names, which nothing uses.
    Repeated {
        front: "reo 2 ",
        middle: "connector c<n>(){} ",
        times: 40_000,
        end: "",
    },
    // 50,000 loops without turns, in 65,535 turns.
    Repeated {
        front: "reo 2 connector m() { for i = 1 to 65535 { ",
        middle: "for i=1 to 0 {}",
        times: 50_000,
        end: "} }",
    },
];

/// Texts of which each stands for two declarations more than it repeats.
const LARGE: &[Repeated] = &[
    // 1,500 connectors of one name, for one number, and one of another.
    Repeated {
        front: "reo 2 connector d<n>(){} ",
        middle: "connector c<n>(){} ",
        times: 1_500,
        end: "connector m() { use c<7>(); use d<0>(); }",
    },
    // 3,000 types, and a buffer with nine literals in 30,000 turns.
    Repeated {
        front: "reo 2 connector c(){} ",
        middle: "type t=unit;",
        times: 3_000,
        end: "connector m() { for i = 1 to 30000 { fifo 9 a.i b with 1,1,1,1,1,1,1,1,1; } }",
    },
];

/// The text.
fn text_of(alloc: Global, repeated: &Repeated) -> Result<Bytes, NoMemory> {
    let mut text = Bytes::from_slice(alloc, repeated.front.as_bytes())?;
    for _ in 0..repeated.times {
        text.append(repeated.middle.as_bytes())?;
    }
    text.append(repeated.end.as_bytes())?;
    Ok(text)
}

/// Whether the text is answered with want of memory.
fn is_bounded(alloc: Global, repeated: &Repeated) -> bool {
    match text_of(alloc, repeated) {
        Ok(text) => stands_for(alloc, text.as_slice(), &Answer::NoMemory),
        Err(_) => false,
    }
}

/// How many declarations the text stands for.
fn declarations_of(alloc: Global, repeated: &Repeated) -> Option<usize> {
    let text = text_of(alloc, repeated).ok()?;
    let program = program_of(alloc, text.as_slice())?;
    let expansion = expand(alloc, &program).ok()?;
    Some(expansion.declarations.len())
}

#[test]
fn larger_expansions_want_memory(rt: HostRuntime) {
    for repeated in TOO_LARGE {
        is(&rt, is_bounded(rt.alloc(), repeated), repeated.end);
    }
}

#[test]
fn large_expansions_are_made(rt: HostRuntime) {
    for repeated in LARGE {
        let count = declarations_of(rt.alloc(), repeated);
        is(&rt, count == Some(repeated.times + 2), repeated.end);
    }
}
