//! At which component a port is looked for first.

use crate::pacing::Paced;
use crate::player::Player;
use crate::step::Step;
use reo_script::Action;
use reo_values::{List, NoMemory};
use std::alloc::Global;

/// One more than the greatest port that an action names, or 0 if it names none.
#[cycle(ports)]
fn ports_within(action: &Action) -> usize {
    match action {
        Action::Write { port, .. } => port.saturating_add(1),
        Action::Take { port, .. } => port.saturating_add(1),
        Action::Pause { .. } => 0,
        Action::Repeat { body, .. } => ports_of(body.as_slice()),
    }
}

/// One more than the greatest port that actions name, or 0 if they name none.
#[cycle(ports)]
pub fn ports_of(actions: &[Action]) -> usize {
    let mut most: usize = 0;
    for action in actions {
        most = most.max(ports_within(action));
    }
    most
}

/// Notes at a port that a component has come there. A port that has no place in the list is passed
/// over.
fn note(latest: &mut List<usize>, component: usize, port: Option<usize>) {
    if let Some(port) = port {
        if port < latest.len() {
            *latest.at_mut(port) = component;
        }
    }
}

/// Notes where a component has come by a step: it has come to a port only where it has gone on.
pub fn note_step(latest: &mut List<usize>, component: usize, step: Step, player: &Player) {
    match step {
        Step::Stays => {}
        Step::Moved | Step::GaveUp { .. } => note(latest, component, player.port()),
    }
}

/// At each port that the components' actions name, a component that stands there, if one does. It
/// is only where to look first. `NoMemory` is out of memory.
pub fn latest_of(alloc: Global, players: &[Paced]) -> Result<List<usize>, NoMemory> {
    let mut room: usize = 0;
    for paced in players {
        room = room.max(paced.player.ports());
    }
    let mut latest = List::new(alloc);
    for _ in 0..room {
        latest.push(0)?;
    }
    for component in 0..players.len() {
        note(&mut latest, component, players[component].player.port());
    }
    Ok(latest)
}
