//! In which order a source and a sink are called: the answers to a piece stand before the next
//! take.
use crate::live_tests::cases::NUMBER;
use crate::live_tests::checks::is;
use crate::live_tests::notes::{NotingSink, NotingSource};
use crate::live_tests::talking::heard;
use reo_live::Heard;
use reo_values::Bytes;
use std::alloc::Global;
use std::cell::RefCell;

/// Events, how hearing ends, and the calls: a line `take` for each take, and else what was put.
const CALLS: &[(&[u8], Heard, &[u8])] = &[
    (
        b"write a 100\nwrite a 7\ntake b\nround\nend\n",
        Heard::Ended,
        b"take\nline 1: outside\ntake\ntake\ntake\nround 1: a!7 b?7 | 0 0 0\ntake\n\
end after 1 rounds\n",
    ),
    // the end of the input is a take
    (
        b"hello\nround",
        Heard::Ended,
        b"take\nline 1: form\ntake\ntake\nround 1: idle | 0 0 1\nend after 1 rounds\n",
    ),
    (b"", Heard::Ended, b"take\nend after 0 rounds\n"),
    // behind the event `end` there is no take
    (b"end\nround\n", Heard::Ended, b"take\nend after 0 rounds\n"),
    // a take that fails behind two answers
    (
        b"round\nhello\n!\nround\n",
        Heard::Missed,
        b"take\nround 1: idle | 0 0 1\ntake\nline 2: form\ntake\n",
    ),
    // nothing is known of a line that was begun
    (
        b"round\nround!\n!",
        Heard::Missed,
        b"take\nround 1: idle | 0 0 1\ntake\nline 2: form\ntake\n",
    ),
    (b"!", Heard::Missed, b"take\n"),
];

/// Whether these are the calls.
fn are_called(alloc: Global, events: &[u8], end: Heard, calls: &[u8]) -> bool {
    let notes = RefCell::new(Bytes::new(alloc));
    let mut source = NotingSource::new(events, &notes);
    let mut sink = NotingSink::new(&notes);
    let came = heard(alloc, NUMBER, &mut source, &mut sink);
    match notes.try_borrow() {
        Ok(list) => came == Some(end) && list.as_slice() == calls,
        Err(_) => false,
    }
}

#[test]
fn answers_stand_before_the_next_take(rt: HostRuntime) {
    for (events, end, calls) in CALLS {
        is(&rt, are_called(rt.alloc(), events, *end, calls), "calls");
    }
}
