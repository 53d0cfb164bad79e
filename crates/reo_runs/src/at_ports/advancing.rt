//! How far the components come in a round.
ghost use Rattle.std.specs.Prelude.{◌≡◌, ℕ, ◌<◌, Some, length, map};
ghost use Rattle.reo_net_base.specs.declared.port.Offer.{Offer as AnOffer};
ghost use Rattle.reo_net_base.specs.Net.{Wiring};
ghost use Rattle.reo_players.specs.Players.{player_of};
ghost use Rattle.reo_rounds.specs.Rules.{rules_of};
ghost use Rattle.reo_runs.specs.at_ports.Pending.{IsButForOffers, pending_in};
ghost use Rattle.reo_runs.specs.at_ports.Between.{AreAtPorts, AreBetween, AreMoved, AreStepped, NoneAsleepIsGone, gone_on, is_gone as is_gone_at};
ghost use Rattle.reo_runs.specs.at_ports.Parts.{AreRoused, HasGoneOn, IsLeft, IsPendingOrGone};

use reo_net_base::{Move, Ported, Ports, Restoring};
use reo_players::{Players, Step};
use reo_rounds::Stage;

/// Whether what a component offered is gone, as it flowed in the round.
fn is_gone<P: Ported, S: Stage<P>>(
    stage: &S,
    ports: &Ports,
    players: &Players,
    component: usize,
) -> bool
    requires there { component < length players.now }
    requires at_ports { let now = S.circuit stage.now in
        AreAtPorts ports.now.list now.ports players.now (map P.port_state now.primitives) }
    ensures { let states = map P.port_state (S.circuit stage.now).primitives in
        result ≡ is_gone_at states (player_of players.now component) }
{
    let _ = ports;
    match players.port_of(component) {
        Some(port) => !stage.circuit().is_pending(port),
        None => false,
    }
}

/// A component goes on after a round, and takes its offer back where its bound ran out.
fn advance<P: Restoring, S: Stage<P>>(
    stage: &mut S,
    ports: &Ports,
    players: &mut Players,
    component: usize,
)
    requires there { component < length players.old }
    requires at_ports { let old = S.circuit stage.old in
        AreAtPorts ports.now.list old.ports players.old (map P.port_state old.primitives) }
    requires offer { let states = map P.port_state (S.circuit stage.old).primitives in
        IsPendingOrGone (player_of players.old component) states }
    ensures players { let states = map P.port_state (S.circuit stage.old).primitives in
        HasGoneOn component states players.old players.new }
    ensures at_ports { let new = S.circuit stage.new in
        AreAtPorts ports.now.list new.ports players.new (map P.port_state new.primitives) }
    ensures offers { let before = map P.port_state (S.circuit stage.old).primitives in
        let now = map P.port_state (S.circuit stage.new).primitives in
        IsLeft (player_of players.old component) (player_of players.new component) before now }
    ensures circuit { let r = rules_of P.behaviour P.settled P.port_state P.placed P.withdrawn in
        (w : Wiring _) → IsButForOffers r w (S.circuit stage.old)
        → ((port : ℕ) (o : AnOffer) → pending_in r (S.circuit stage.old).primitives port ≡ Some o
        → pending_in r w.primitives port ≡ Some o)
        → IsButForOffers r w (S.circuit stage.new) }
    ensures rounds { S.rounds stage.new ≡ S.rounds stage.old }
{
    let flowed = is_gone(stage, ports, players, component);
    if let Step::GaveUp { port } = players.advance(component, flowed) {
        stage.take_back(port);
    }
}

/// Lets those at whose ports items moved be as if no round had seen their present actions, so that
/// they are awake.
fn rouse_all(players: &mut Players, moves: &[Move])
    ensures { AreRoused moves.now (length moves.now) players.old players.new }
{
    for flow in moves {
        players.rouse_at(flow.port);
    }
}

/// Each component goes on after a round, in which its offer flowed where it is gone. An offer whose
/// bound ran out is taken back. Those that are idle or wait are passed over. This takes no memory.
fn advance_awake<P: Restoring, S: Stage<P>>(stage: &mut S, ports: &Ports, players: &mut Players)
    requires stepped { let old = S.circuit stage.old in
        AreStepped ports.now.list old.ports players.old (map P.port_state old.primitives) }
    requires asleep { NoneAsleepIsGone players.old
        (map P.port_state (S.circuit stage.old).primitives) }
    ensures players { let states = map P.port_state (S.circuit stage.old).primitives in
        players.new ≡ gone_on states players.old }
    ensures between { let new = S.circuit stage.new in
        AreBetween ports.now.list new.ports players.new (map P.port_state new.primitives) }
    ensures circuit { let r = rules_of P.behaviour P.settled P.port_state P.placed P.withdrawn in
        IsButForOffers r (S.circuit stage.old) (S.circuit stage.new) }
    ensures rounds { S.rounds stage.new ≡ S.rounds stage.old }
{
    let mut component = players.pass_on(0);
    while component < players.count() {
        advance(stage, ports, players, component);
        component = players.pass_on(component + 1);
    }
}

/// Each component goes on after a round, in which its offer flowed where it is gone, and its port
/// has a move. An offer whose bound ran out is taken back. Only those are gone to that have a new
/// action, or a move at their port, or whose bound or pause runs out. This takes no memory.
pub fn advance_all<P: Restoring, S: Stage<P>>(
    stage: &mut S,
    ports: &Ports,
    players: &mut Players,
    moves: &[Move],
)
    requires stepped { let old = S.circuit stage.old in
        AreStepped ports.now.list old.ports players.old (map P.port_state old.primitives) }
    requires moved { let states = map P.port_state (S.circuit stage.old).primitives in
        AreMoved moves.now players.old states }
    ensures players { let states = map P.port_state (S.circuit stage.old).primitives in
        players.new ≡ gone_on states players.old }
    ensures between { let new = S.circuit stage.new in
        AreBetween ports.now.list new.ports players.new (map P.port_state new.primitives) }
    ensures circuit { let r = rules_of P.behaviour P.settled P.port_state P.placed P.withdrawn in
        IsButForOffers r (S.circuit stage.old) (S.circuit stage.new) }
    ensures rounds { S.rounds stage.new ≡ S.rounds stage.old }
{
    rouse_all(players, moves);
    advance_awake(stage, ports, players);
}
