//! The rounds of one component.
use crate::checks::is;
use crate::reading::{nested, script_of};
use Step::{GaveUp, Moved, Stays};
use reo_players::{Players, Step, Want};
use reo_script::ScriptFault;
use reo_values::Value;
use std::alloc::Global;

/// What the component wants: to write an item at a port, to take one there, to rest, or nothing.
#[derive(Clone, Copy)]
enum Wish {
    Write(usize, i64),
    Take(usize),
    Rest,
    Done,
}

use Wish::{Done, Rest, Take, Write};

/// What it wants; whether that is fresh and counts; whether its offer flows; and what that makes.
type Round = (Wish, bool, bool, bool, Step);

/// The words of a component, and its rounds.
const PLAYS: &[(&str, &[Round])] = &[
    (
        "repeat 2 { repeat 2 { write a 1; } write a 2; }",
        &[
            (Write(0, 1), true, false, true, Moved),
            (Write(0, 1), true, false, true, Moved),
            (Write(0, 2), true, false, true, Moved),
            (Write(0, 1), true, false, true, Moved),
            (Write(0, 1), true, false, true, Moved),
            (Write(0, 2), true, false, true, Moved),
            (Done, true, false, true, Stays),
            (Done, true, false, false, Stays),
        ],
    ),
    // repeats whose written-out list is empty
    ("", &[(Done, true, false, false, Stays)]),
    (
        "repeat 1000000000 { }",
        &[(Done, true, false, false, Stays)],
    ),
    (
        "repeat 0 { take b; } repeat 3 { repeat 2 { } repeat 0 { pause 1; } } take d; repeat 0 { }",
        &[
            (Take(3), true, false, true, Moved),
            (Done, true, false, false, Stays),
        ],
    ),
    // a bound runs out
    (
        "take b within 2; write c 5;",
        &[
            (Take(1), true, true, false, Stays),
            (Take(1), false, true, false, GaveUp { port: 1 }),
            (Write(2, 5), true, false, false, Stays),
            (Write(2, 5), false, false, false, Stays),
            (Write(2, 5), false, false, true, Moved),
            (Done, true, false, false, Stays),
        ],
    ),
    // the offer flows in the last round of its bound
    (
        "take b within 2; write c 5 within 1;",
        &[
            (Take(1), true, true, false, Stays),
            (Take(1), false, true, true, Moved),
            (Write(2, 5), true, true, false, GaveUp { port: 2 }),
            (Done, true, false, false, Stays),
        ],
    ),
    // a pause waits for no flow, and each of its rounds counts anew when a repeat comes back
    (
        "repeat 2 { pause 2; take b; }",
        &[
            (Rest, true, true, false, Stays),
            (Rest, false, true, false, Moved),
            (Take(1), true, false, true, Moved),
            (Rest, true, true, false, Stays),
            (Rest, false, true, false, Moved),
            (Take(1), true, false, false, Stays),
            (Take(1), false, false, true, Moved),
            (Done, true, false, false, Stays),
        ],
    ),
];

fn is_item(item: &Value, number: i64) -> bool {
    match item {
        Value::Int(found) => *found == number,
        _ => false,
    }
}

fn is_wished(want: Want<'_>, wish: Wish) -> bool {
    match want {
        Want::Write { port, item } => match wish {
            Write(at, number) => port == at && is_item(item, number),
            _ => false,
        },
        Want::Take { port } => matches!(wish, Take(at) if port == at),
        Want::Rest => matches!(wish, Rest),
        Want::Done => matches!(wish, Done),
    }
}

fn is_round(players: &mut Players, round: &Round) -> bool {
    let (wish, fresh, counts, flowed, step) = *round;
    players.count() == 1
        && is_wished(players.wants(0), wish)
        && players.fresh(0) == fresh
        && players.someone_counts() == counts
        && players.all_done() == matches!(wish, Done)
        && players.advance(0, flowed) == step
}

fn plays(alloc: Global, text: &[u8], rounds: &[Round]) -> Result<bool, ScriptFault> {
    let mut players = Players::new(alloc, script_of(alloc, text)?)?;
    let mut all = true;
    for round in rounds {
        all = all && is_round(&mut players, round);
    }
    Ok(all)
}

fn are_played(alloc: Global, actions: &str, rounds: &[Round]) -> bool {
    match nested(alloc, 0, "", actions) {
        Ok(text) => matches!(plays(alloc, text.as_slice(), rounds), Ok(true)),
        Err(_) => false,
    }
}

/// Rounds of sixteen repeats of 10^9 in one another, which never end.
const LONG: &[Round] = &[
    (Write(0, 1), true, false, false, Stays),
    (Write(0, 1), false, false, true, Moved),
    (Take(1), true, false, true, Moved),
    (Write(0, 1), true, false, true, Moved),
];

fn is_long(alloc: Global) -> bool {
    match nested(alloc, 16, "repeat 1000000000 { ", "write a 1; take b;") {
        Ok(text) => matches!(plays(alloc, text.as_slice(), LONG), Ok(true)),
        Err(_) => false,
    }
}

#[test]
fn components_have_their_rounds(rt: HostRuntime) {
    let alloc = rt.alloc();
    for (actions, rounds) in PLAYS {
        is(&rt, are_played(alloc, actions, rounds), actions);
    }
    is(&rt, is_long(alloc), "sixteen");
}
