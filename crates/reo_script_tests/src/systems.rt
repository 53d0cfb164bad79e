//! The rounds of several components.
use crate::checks::is;
use crate::reading::script_of;
use Step::{GaveUp, Moved, Stays};
use reo_players::{Players, Step};
use reo_script::ScriptFault;
use std::alloc::Global;

/// The number of a component, whether its offer flows, and what that makes; and then whether a
/// component counts, and whether all are done.
type Turn = (usize, bool, Step, bool, bool);

const SYSTEM: &str = "component x { take b; }
component y { pause 1; write a 1 within 2; }
component z { write c 2; pause 2; }";

const TURNS: &[Turn] = &[
    (0, true, Moved, true, false),
    (1, false, Moved, true, false),
    (0, true, Stays, true, false),
    (1, false, Stays, true, false),
    (1, false, GaveUp { port: 0 }, false, false),
    (2, false, Stays, false, false),
    (2, true, Moved, true, false),
    (2, false, Stays, true, false),
    (2, false, Moved, false, true),
];

/// A component that is not done behind two that are, and then before them.
const ENDS: &[Turn] = &[
    (2, true, Moved, true, false),
    (2, false, Stays, true, false),
    (2, false, Moved, true, false),
    (1, false, Moved, true, false),
    (1, true, Moved, false, false),
    (0, true, Moved, false, true),
];

fn is_turn(players: &mut Players, turn: &Turn) -> bool {
    let (component, flowed, step, counts, done) = *turn;
    component < players.count()
        && players.advance(component, flowed) == step
        && players.someone_counts() == counts
        && players.all_done() == done
}

fn plays(alloc: Global, turns: &[Turn]) -> Result<bool, ScriptFault> {
    let mut players = Players::new(alloc, script_of(alloc, SYSTEM.as_bytes())?)?;
    let mut all = players.count() == 3 && players.someone_counts() && !players.all_done();
    for turn in turns {
        all = all && is_turn(&mut players, turn);
    }
    Ok(all)
}

fn are_played(alloc: Global, turns: &[Turn]) -> bool {
    matches!(plays(alloc, turns), Ok(true))
}

#[test]
fn systems_have_their_turns(rt: HostRuntime) {
    is(&rt, are_played(rt.alloc(), TURNS), "turns");
    is(&rt, are_played(rt.alloc(), ENDS), "ends");
}
