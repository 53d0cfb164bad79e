//! Forty rounds of a sequencer.
use crate::live_tests::cases::{Case, is_fed, is_heard};
use crate::live_tests::checks::is;
use crate::live_tests::talking::{Cut, Talk};
use crate::live_tests::texts::append_made;
use reo_values::{Bytes, NoMemory};
use std::alloc::Global;
use std::test::Fail;

const SEQUENCER: &[u8] =
    b"connector main(in a: int 0..9, in b: int 0..9, in c: int 0..9, in d: int 0..9) {
  node w: unit; node x: unit; node y: unit; node z: unit;
  fifo1 z w with unit; fifo1 w x; fifo1 x y; fifo1 y z;
  syncdrain a w; syncdrain b x; syncdrain c y; syncdrain d z;
}";

/// The port that flows, and what a round shows where a write is pending at each port.
const TURNS: &[(&str, &str)] = &[
    ("a", "a!1 | 0 1 1 1 0.0 0.0 1.0 1.0 0 2 2 2 0 1 1 1"),
    ("b", "b!1 | 1 0 1 1 1.0 0.0 0.0 1.0 2 0 2 2 1 0 1 1"),
    ("c", "c!1 | 1 1 0 1 1.0 1.0 0.0 0.0 2 2 0 2 1 1 0 1"),
    ("d", "d!1 | 1 1 1 0 0.0 1.0 1.0 0.0 2 2 2 0 1 1 1 0"),
];

/// The last rounds, in which nothing new is written.
const LAST: &str = "round 37: a!1 | 0 1 1 1 0.0 0.0 1.0 1.0 0 2 2 2 0 1 1 1
round 38: b!1 | 0 0 1 1 1.0 0.0 0.0 1.0 1 0 2 2 1 0 1 1
round 39: c!1 | 0 0 0 1 1.0 1.0 0.0 0.0 1 1 0 2 1 1 0 1
round 40: d!1 | 0 0 0 0 0.0 1.0 1.0 0.0 1 1 1 0 1 1 1 0
end after 40 rounds
";

/// Four writes, 36 rounds with a write behind each, and four rounds.
fn events(alloc: Global) -> Result<Bytes, NoMemory> {
    let mut text = Bytes::from_slice(alloc, b"write a 1\nwrite b 1\nwrite c 1\nwrite d 1\n")?;
    for _ in 0..9 {
        for (port, _) in TURNS {
            text.append(b"round\nwrite ")?;
            text.append(port.as_bytes())?;
            text.append(b" 1\n")?;
        }
    }
    text.append(b"round\nround\nround\nround\n")?;
    Ok(text)
}

fn answers(alloc: Global) -> Result<Bytes, NoMemory> {
    let mut text = Bytes::new(alloc);
    let mut round = 0u64;
    for _ in 0..9 {
        for (_, shown) in TURNS {
            round = round.wrapping_add(1);
            append_made(&mut text, format!(in alloc; "round {round}: {shown}\n"))?;
        }
    }
    text.append(LAST.as_bytes())?;
    Ok(text)
}

fn is_played(alloc: Global) -> Result<bool, NoMemory> {
    let events = events(alloc)?;
    let answers = answers(alloc)?;
    let case = Case {
        talk: Talk {
            circuit: SEQUENCER,
            budget: 1,
        },
        events: events.as_slice(),
        answers: answers.as_slice(),
        stop: None,
    };
    Ok(
        is_heard(alloc, case, 1)?
            && is_fed(
                alloc,
                case,
                Cut {
                    first: 0,
                    others: 1,
                },
            )?,
    )
}

#[test]
fn a_sequencer_flows_in_turn(rt: HostRuntime) -> Result<(), Fail> {
    is(&rt, is_played(rt.alloc())?, "forty rounds");
    Ok(())
}
