//! The calls, on the exclusive router: its rounds, and what each call refuses.
use reo_handles::{
    Handle, Round, close, find_open, item_open, lay_words, moved_open, nothing, open, round_open,
    take_open, withdraw_open, write_open,
};
use std::alloc::{AllocError, Global};
use std::process::Abort;

/// Each item goes to the left or to the right, and never to both.
const ROUTER: &[u8] =
    b"connector main(in source: int 0..9, out left: int 0..9, out right: int 0..9) {
  node to_left: int 0..9;
  node to_right: int 0..9;
  node chosen: int 0..9;
  lossy source to_left;
  lossy source to_right;
  sync to_left left;
  sync to_left chosen;
  sync to_right right;
  sync to_right chosen;
  syncdrain source chosen;
}";

/// The numbers of its ports, in the order of the circuit.
const SOURCE: usize = 0;

const LEFT: usize = 1;

const RIGHT: usize = 2;

/// A budget that serves, and the least that is none.
const BUDGET: u64 = 1_000_000;

const NO_BUDGET: u64 = 1_000_000_000_000_000_000;

/// The test stops where the answer is no. The line names the case.
fn is(rt: &impl Abort, answer: bool, line: &str) {
    assert!(rt; answer, "{line}");
}

/// Opens a text, and answers the number, and how long the words of a refusal are.
fn opened(alloc: Global, handle: &mut Handle, text: &[u8]) -> (u32, usize) {
    let mut room = [0; 8];
    let mut length = 0;
    let number = open(alloc, handle, text, &mut room, &mut length).number();
    (number, length)
}

/// Makes a round, and answers the number, and what was told of it.
fn made(alloc: Global, handle: &mut Handle, budget: u64) -> (u32, Round) {
    let mut round = Round {
        number: 0,
        moves: 0,
        jammed: 0,
        idle: true,
    };
    let number = round_open(alloc, handle, budget, &mut round).number();
    (number, round)
}

/// Whether the move of an index is that of a port, with an item of one byte.
fn is_move(alloc: Global, handle: &mut Handle, index: usize, port: usize, item: u8) -> bool {
    let mut at = 9;
    let number = moved_open(alloc, handle, index, &mut at).number();
    let mut room = [0; 4];
    let mut length = 0;
    let told = item_open(alloc, handle, index, &mut room, &mut length).number();
    number == 0 && at == port && told == 0 && length == 1 && room[0] == item
}

/// Whether a write at the source and a take at a side flow in the round that follows.
fn goes(alloc: Global, handle: &mut Handle, item: u8, side: usize, number: u64) -> bool {
    let text = [item];
    let written = write_open(alloc, handle, SOURCE, &text).number();
    let taken = take_open(alloc, handle, side).number();
    let (done, round) = made(alloc, handle, BUDGET);
    let from = is_move(alloc, handle, 0, SOURCE, item);
    let to = is_move(alloc, handle, 1, side, item);
    let offered = written == 0 && taken == 0 && done == 0;
    offered && round.number == number && round.moves == 2 && !round.idle && from && to
}

#[test]
fn items_go_through_the_router(rt: HostRuntime) {
    let alloc = rt.alloc();
    let mut handle = nothing();
    is(&rt, opened(alloc, &mut handle, ROUTER).0 == 0, "open");
    is(
        &rt,
        goes(alloc, &mut handle, b'1', LEFT, 1),
        "source 1 left 1",
    );
    is(
        &rt,
        goes(alloc, &mut handle, b'2', RIGHT, 2),
        "source 2 right 2",
    );
    is(
        &rt,
        goes(alloc, &mut handle, b'3', LEFT, 3),
        "source 3 left 3",
    );
    close(alloc, &mut handle);
    is(
        &rt,
        take_open(alloc, &mut handle, LEFT).number() == 1,
        "closed",
    );
}

#[test]
fn texts_are_refused(rt: HostRuntime) -> Result<(), AllocError> {
    let alloc = rt.alloc();
    let mut handle = nothing();
    let (number, length) = opened(alloc, &mut handle, b"connector");
    is(&rt, number == 2 && length > 0, "no circuit");
    let long = Vec::from_elem(alloc, b' ', 1_048_577)?;
    is(
        &rt,
        opened(alloc, &mut handle, long.as_slice()).0 == 3,
        "too long",
    );
    is(
        &rt,
        withdraw_open(alloc, &mut handle, LEFT).number() == 1,
        "nothing is open",
    );
    Ok(())
}

#[test]
fn offers_are_refused(rt: HostRuntime) {
    let alloc = rt.alloc();
    let mut handle = nothing();
    let mut port = 9;
    is(&rt, opened(alloc, &mut handle, ROUTER).0 == 0, "open");
    is(
        &rt,
        find_open(alloc, &mut handle, b"right", &mut port).number() == 0,
        "a port",
    );
    is(&rt, port == RIGHT, "its number");
    is(
        &rt,
        find_open(alloc, &mut handle, b"middle", &mut port).number() == 4,
        "no name",
    );
    is(
        &rt,
        take_open(alloc, &mut handle, 3).number() == 4,
        "no number",
    );
    is(
        &rt,
        take_open(alloc, &mut handle, SOURCE).number() == 5,
        "a take at an in port",
    );
    is(
        &rt,
        write_open(alloc, &mut handle, LEFT, b"1").number() == 5,
        "a write at an out port",
    );
    is(
        &rt,
        take_open(alloc, &mut handle, LEFT).number() == 0,
        "a take",
    );
    is(
        &rt,
        take_open(alloc, &mut handle, LEFT).number() == 6,
        "pending",
    );
    is(
        &rt,
        write_open(alloc, &mut handle, SOURCE, b"10").number() == 8,
        "an item outside",
    );
    is(
        &rt,
        write_open(alloc, &mut handle, SOURCE, b"red").number() == 8,
        "no item",
    );
    is(
        &rt,
        withdraw_open(alloc, &mut handle, LEFT).number() == 0,
        "withdrawn",
    );
    is(
        &rt,
        withdraw_open(alloc, &mut handle, LEFT).number() == 9,
        "not pending",
    );
    close(alloc, &mut handle);
}

#[test]
fn rounds_are_refused(rt: HostRuntime) {
    let alloc = rt.alloc();
    let mut handle = nothing();
    let mut port = 9;
    is(&rt, opened(alloc, &mut handle, ROUTER).0 == 0, "open");
    is(
        &rt,
        write_open(alloc, &mut handle, SOURCE, b"1").number() == 0,
        "a write",
    );
    is(
        &rt,
        take_open(alloc, &mut handle, LEFT).number() == 0,
        "a take",
    );
    is(&rt, made(alloc, &mut handle, 0).0 == 11, "over the budget");
    is(
        &rt,
        made(alloc, &mut handle, NO_BUDGET).0 == 12,
        "no budget",
    );
    is(
        &rt,
        moved_open(alloc, &mut handle, 0, &mut port).number() == 14,
        "no round yet",
    );
    is(&rt, made(alloc, &mut handle, BUDGET).0 == 0, "a round");
    is(
        &rt,
        moved_open(alloc, &mut handle, 2, &mut port).number() == 14,
        "no third move",
    );
    close(alloc, &mut handle);
}

#[test]
fn numbers_have_words(rt: HostRuntime) {
    let mut room = [0; 8];
    is(&rt, lay_words(6, &mut room) == 7, "their length");
    is(&rt, room == *b"pending\0", "pending");
    is(&rt, lay_words(16, &mut room) == 0, "no words");
}
