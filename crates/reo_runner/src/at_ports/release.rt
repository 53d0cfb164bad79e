//! Letting go what runs are made with. How the parts of an engine go is proved here, once, and not
//! in each crate that makes one.

use reo_engine::Engine;
use reo_net_base::Ported;
use reo_net_circuit::Circuit;
use reo_players::Players;

/// Lets an engine and the components of its run go.
pub fn release_run<P: Ported>(engine: Engine<P>, players: Players) {
    drop(engine);
    drop(players);
}

/// Lets an engine go.
pub fn release_engine<P: Ported>(engine: Engine<P>) {
    drop(engine);
}

/// Lets a circuit go of which no engine was made.
pub fn release_circuit<P: Ported>(circuit: Circuit<P>) {
    drop(circuit);
}

/// Lets the components go of a run that did not begin.
pub fn release_players(players: Players) {
    drop(players);
}
