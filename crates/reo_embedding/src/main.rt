//! The engine in a program of one's own: the exclusive router is opened from its text, components
//! offer at its ports, and what moved in each round is written.
#![tactic(auto)]

use reo_connector::Connector;
use reo_net_base::Offer;
use reo_rounds::Done;
use reo_values::{Bytes, NoMemory};
use std::alloc::Global;
use std::io::{self, ErrorKind};
use std::str::from_utf8;

/// An exclusive router: each item goes to the left or to the right, and never to both.
const ROUTER: &[u8] =
    b"connector main(in source: int 0..9, out left: int 0..9, out right: int 0..9) {
  node to_left: int 0..9;
  node to_right: int 0..9;
  node chosen: int 0..9;
  lossy source to_left;
  lossy source to_right;
  sync to_left left;
  sync to_left chosen;
  sync to_right right;
  sync to_right chosen;
  syncdrain source chosen;
}";

/// The greatest weight that a part of the circuit may have: the greatest there is.
const BUDGET: u64 = 999_999_999_999_999_999;

/// The rounds that the program may make.
const MOST_ROUNDS: u64 = 1_000_000;

/// Offers to write the item of a text at a port, and answers whether the offer is pending now.
fn write(alloc: Global, held: &mut Connector, port: &[u8], text: &[u8]) -> bool {
    let Some(port) = held.port(port) else {
        return false;
    };
    match held.item(alloc, port, text) {
        Ok(item) => held.offer(port, Offer::Write(item)).is_ok(),
        Err(_) => false,
    }
}

/// Offers to take an item at a port, and answers whether the offer is pending now.
fn take(held: &mut Connector, port: &[u8]) -> bool {
    match held.port(port) {
        Some(port) => held.offer(port, Offer::Take).is_ok(),
        None => false,
    }
}

/// What moved in a round: each port that flowed, with its item.
fn moves_of(alloc: Global, held: &Connector, done: &Done) -> Result<Bytes, NoMemory> {
    let mut line = Bytes::new(alloc);
    for one in done.moves.as_slice() {
        if let Some(port) = held.ports().list.get(one.port) {
            let item = held.text(alloc, one.port, &one.item)?;
            line.push(b' ')?;
            line.append(port.name.as_slice())?;
            line.push(b' ')?;
            line.append(item.as_slice())?;
        }
    }
    Ok(line)
}

/// Writes what moved in the round that was made last.
fn show(rt: &HostRuntime, held: &Connector, done: &Done) -> io::Result<()> {
    let round = held.rounds();
    match moves_of(rt.alloc(), held, done) {
        Ok(line) => println!(rt;
            "round {round}:{}",
            from_utf8(line.as_slice()).unwrap_or("?")
        ),
        Err(NoMemory) => Err(ErrorKind::OutOfMemory.into()),
    }
}

/// One write at the source and one take at a side, and the round that follows.
fn go(rt: &HostRuntime, held: &mut Connector, item: &[u8], side: &[u8]) -> io::Result<()> {
    let alloc: Global = rt.alloc();
    if !write(alloc, held, b"source", item) || !take(held, side) {
        return println!(rt; "an offer is declined");
    }
    if held.rounds() >= MOST_ROUNDS {
        return println!(rt; "enough rounds");
    }
    match held.round(alloc, BUDGET) {
        Ok(done) => show(rt, held, &done),
        Err(fault) => println!(rt; "no round: {fault:?}"),
    }
}

/// What the components do.
fn run(rt: &HostRuntime, held: &mut Connector) -> io::Result<()> {
    go(rt, held, b"1", b"left")?;
    go(rt, held, b"2", b"right")?;
    go(rt, held, b"3", b"left")
}

fn main(rt: HostRuntime) -> io::Result<()> {
    match Connector::open(rt.alloc(), ROUTER) {
        Ok(held) => {
            let mut held = held;
            let ended = run(&rt, &mut held);
            held.close();
            ended
        }
        Err(_) => println!(rt; "the circuit is refused"),
    }
}
