//! The texts of lines, and what writers do to a sink.
use crate::checks::is;
use crate::puts::calls;
use reo_io::MemorySink;
use reo_net_base::{Move, Port, Ports, Way};
use reo_trace::{
    Cell, Ending, Entry, RoundLine, WriteFault, ending_line_text, round_line_text, write_ending,
    write_round,
};
use reo_values::{Bytes, Kindred, List, NoMemory, Shared, Value};
use std::alloc::Global;
use std::test::Fail;

fn port(alloc: Global, name: &[u8], way: Way, kindred: Kindred) -> Result<Port, NoMemory> {
    let name = Bytes::from_slice(alloc, name)?;
    Ok(Port { name, way, kindred })
}

/// The in ports `a` and `c`, and the out port `b`, which all carry numbers, and the out port `t`,
/// which carries texts.
fn ports(alloc: Global) -> Result<Ports, NoMemory> {
    let mut list = List::new(alloc);
    list.push(port(alloc, b"a", Way::In, Kindred::Int(0, 9))?)?;
    list.push(port(alloc, b"b", Way::Out, Kindred::Int(0, 9))?)?;
    list.push(port(alloc, b"c", Way::In, Kindred::Int(-99, 99))?)?;
    list.push(port(alloc, b"t", Way::Out, Kindred::Text(9))?)?;
    Ok(Ports { list })
}

/// What flows at a port.
#[derive(Clone, Copy)]
enum Item {
    Number(i64),
    Text(&'static str),
}

fn made(alloc: Global, item: Item) -> Result<Value, NoMemory> {
    match item {
        Item::Number(number) => Ok(Value::Int(number)),
        Item::Text(text) => {
            let bytes = Bytes::from_slice(alloc, text.as_bytes())?;
            Ok(Value::Text(Shared::new(alloc, bytes)?))
        }
    }
}

fn moves_of(alloc: Global, flows: &[(usize, Item)]) -> Result<List<Move>, NoMemory> {
    let mut moves = List::new(alloc);
    for (port, flowing) in flows {
        let item = made(alloc, *flowing)?;
        moves.push(Move { port: *port, item })?;
    }
    Ok(moves)
}

fn entries_of(alloc: Global, cells: &[Entry]) -> Result<List<Entry>, NoMemory> {
    let mut entries = List::new(alloc);
    for entry in cells {
        entries.push(*entry)?;
    }
    Ok(entries)
}

/// A line of a trace.
#[derive(Clone, Copy)]
struct Said {
    round: u64,
    idle: bool,
    flows: &'static [(usize, Item)],
    entries: &'static [Entry],
}

fn line_of(alloc: Global, said: Said) -> Result<RoundLine, NoMemory> {
    let entries = entries_of(alloc, said.entries)?;
    Ok(RoundLine {
        round: said.round,
        idle: said.idle,
        moves: moves_of(alloc, said.flows)?,
        entries,
    })
}

const JAM: Entry = Entry::One(Cell::Jam);

const ROW0: Entry = Entry::One(Cell::Row(0));

const ROW1: Entry = Entry::One(Cell::Row(1));

const ROW20: Entry = Entry::One(Cell::Row(20));

const LINES: &[(Said, &str)] = &[
    (
        Said {
            round: 1,
            idle: false,
            flows: &[(0, Item::Number(3)), (1, Item::Number(3))],
            entries: &[ROW0, ROW0, ROW0],
        },
        "round 1: a!3 b?3 | 0 0 0\n",
    ),
    (
        Said {
            round: 2,
            idle: true,
            flows: &[],
            entries: &[ROW1, JAM, Entry::Two(Cell::Row(0), Cell::Jam)],
        },
        "round 2: idle | 1 j 0.j\n",
    ),
    (
        Said {
            round: 17,
            idle: false,
            flows: &[],
            entries: &[Entry::Two(Cell::Row(1), Cell::Row(0)), ROW20],
        },
        "round 17: - | 1.0 20\n",
    ),
    (
        Said {
            round: 10,
            idle: false,
            flows: &[(2, Item::Number(-5))],
            entries: &[ROW0],
        },
        "round 10: c!-5 | 0\n",
    ),
    (
        Said {
            round: 1,
            idle: true,
            flows: &[],
            entries: &[],
        },
        "round 1: idle | \n",
    ),
    (
        Said {
            round: 4,
            idle: false,
            flows: &[(3, Item::Text("a b"))],
            entries: &[JAM],
        },
        "round 4: t?\"a b\" | j\n",
    ),
];

fn line_says(alloc: Global, ports: &Ports, said: Said, text: &str) -> Result<bool, NoMemory> {
    let line = line_of(alloc, said)?;
    Ok(round_line_text(alloc, ports, &line)?.as_slice() == text.as_bytes())
}

#[test]
fn round_lines_have_their_texts(rt: HostRuntime) -> Result<(), Fail> {
    let alloc = rt.alloc();
    let ports = ports(alloc)?;
    for (said, text) in LINES {
        is(&rt, line_says(alloc, &ports, *said, text)?, text);
    }
    Ok(())
}

const ENDINGS: &[(Ending, &str)] = &[
    (Ending::Done { rounds: 0 }, "done after 0 rounds\n"),
    (Ending::Stuck { rounds: 1 }, "stuck after 1 rounds\n"),
    (
        Ending::Limit { rounds: 1_000_000 },
        "limit after 1000000 rounds\n",
    ),
    (
        Ending::Spent {
            round: 1,
            knot: 0,
            weight: 5,
            budget: 4,
        },
        "spent in round 1: knot 0 weight 5 budget 4\n",
    ),
    (
        Ending::Spent {
            round: 12,
            knot: 3,
            weight: 1_000_000_000_000_000_000,
            budget: 100_000,
        },
        "spent in round 12: knot 3 weight 1000000000000000000 budget 100000\n",
    ),
    (
        Ending::Wide { round: 1, knot: 0 },
        "wide in round 1: knot 0\n",
    ),
];

fn ending_says(alloc: Global, ending: &Ending, text: &str) -> Result<bool, NoMemory> {
    Ok(ending_line_text(alloc, ending)?.as_slice() == text.as_bytes())
}

#[test]
fn endings_have_their_texts(rt: HostRuntime) -> Result<(), Fail> {
    let alloc = rt.alloc();
    for (ending, text) in ENDINGS {
        is(&rt, ending_says(alloc, ending, text)?, text);
    }
    Ok(())
}

const ONE: Said = Said {
    round: 1,
    idle: false,
    flows: &[(0, Item::Number(3))],
    entries: &[ROW0],
};

/// `.` for Ok, `!` where the sink failed.
fn mark_of_write(answer: Result<(), WriteFault>) -> u8 {
    match answer {
        Ok(()) => b'.',
        Err(WriteFault::Failed) => b'!',
        Err(WriteFault::NoMemory) => b'?',
    }
}

/// The marks of writing a line and an ending, and then the bytes kept.
fn two_writes(alloc: Global, ports: &Ports, sink: &mut MemorySink) -> Result<Bytes, NoMemory> {
    let line = line_of(alloc, ONE)?;
    let mut said = Bytes::new(alloc);
    said.push(mark_of_write(write_round(alloc, ports, &line, sink)))?;
    said.push(mark_of_write(write_ending(alloc, &Ending::Done { rounds: 1 }, sink)))?;
    said.append(sink.bytes())?;
    Ok(said)
}

/// The call of five bytes that fails, and what `two_writes` says.
const WRITES: &[(u64, &str)] = &[
    (0, "..round 1: a!3 | 0\ndone after 1 rounds\n"),
    (2, "!.rounddone after 1 rounds\n"),
    (5, ".!round 1: a!3 | 0\n"),
];

fn writes_say(alloc: Global, ports: &Ports, failing: u64, text: &str) -> Result<bool, NoMemory> {
    let mut sink = MemorySink::new(alloc, 100, 5, calls(alloc, failing, 0)?)?;
    Ok(two_writes(alloc, ports, &mut sink)?.as_slice() == text.as_bytes())
}

#[test]
fn a_sink_gets_whole_lines_until_it_fails(rt: HostRuntime) -> Result<(), Fail> {
    let alloc = rt.alloc();
    let ports = ports(alloc)?;
    for (failing, text) in WRITES {
        is(&rt, writes_say(alloc, &ports, *failing, text)?, text);
    }
    Ok(())
}
