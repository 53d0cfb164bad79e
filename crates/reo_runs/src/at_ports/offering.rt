//! What the components offer at the start of a round.
ghost use Rattle.std.specs.Prelude.{◌≡◌, ◌<◌, ◌+◌, ◌==◌, true, OnOk, length, map};
ghost use Rattle.reo_net_base.specs.Net.{Wiring};
ghost use Rattle.reo_players.specs.Players.{player_of};
ghost use Rattle.reo_players.specs.Offers.{offer_for};
ghost use Rattle.reo_rounds.specs.Ready.{ready};
ghost use Rattle.reo_rounds.specs.Rules.{rules_of};
ghost use Rattle.reo_runs.specs.at_ports.Pending.{IsButForOffers};
ghost use Rattle.reo_runs.specs.at_ports.Between.{AreBetween, AreStarted};
ghost use Rattle.reo_runs.specs.at_ports.Parts.{AreOffering, IsFresh};

use reo_net_base::{Offer, Ported, Ports};
use reo_players::{Players, Want, offers_agree};
use reo_rounds::Stage;
use reo_values::{NoMemory, copy};

/// Makes an offer pending that a component makes and no round has seen.
fn place_fresh<P: Ported, S: Stage<P>>(
    stage: &mut S,
    ports: &Ports,
    players: &Players,
    component: usize,
    port: usize,
    offer: Offer,
)
    requires there { component < length players.now }
    requires fresh { IsFresh (player_of players.now component) port offer }
    requires before { let old = S.circuit stage.old in
        let states = map P.port_state old.primitives in
        AreOffering ports.now.list old.ports component players.now states }
    ensures offers { let new = S.circuit stage.new in
        let states = map P.port_state new.primitives in
        AreOffering ports.now.list new.ports (component + 1) players.now states }
    ensures circuit { let r = rules_of P.behaviour P.settled P.port_state P.placed P.withdrawn in
        (w : Wiring _) → IsButForOffers r w (S.circuit stage.old)
        → IsButForOffers r w (S.circuit stage.new) }
    ensures rounds { S.rounds stage.new ≡ S.rounds stage.old }
{
    let _ = ports;
    let _ = players;
    let _ = component;
    stage.place(port, offer);
}

/// Offers what a component wants whose present action no round has seen. This takes no memory:
/// `NoMemory` means that more share its item than can be counted.
fn offer_fresh<P: Ported, S: Stage<P>>(
    stage: &mut S,
    ports: &Ports,
    players: &Players,
    component: usize,
) -> Result<(), NoMemory>
    requires there { component < length players.now }
    requires unseen { ((player_of players.now component).seen == 0) ≡ true }
    requires before { let old = S.circuit stage.old in
        let states = map P.port_state old.primitives in
        AreOffering ports.now.list old.ports component players.now states }
    ensures offers { let new = S.circuit stage.new in
        let states = map P.port_state new.primitives in
        OnOk result (AreOffering ports.now.list new.ports (component + 1) players.now states) }
    ensures circuit { let r = rules_of P.behaviour P.settled P.port_state P.placed P.withdrawn in
        OnOk result ((w : Wiring _) → IsButForOffers r w (S.circuit stage.old)
        → IsButForOffers r w (S.circuit stage.new)) }
    ensures rounds { S.rounds stage.new ≡ S.rounds stage.old }
{
    let (port, offer) = match players.wants(component) {
        Want::Write { port, item } => (port, Offer::Write(copy(item)?)),
        Want::Take { port } => (port, Offer::Take),
        Want::Rest => return Ok(()),
        Want::Done => return Ok(()),
    };
    place_fresh(stage, ports, players, component, port, offer);
    Ok(())
}

/// Offers at the ports what the components want: those offers that no round has seen yet come to
/// those that are pending. This takes no memory: `NoMemory` means that more share an item than can
/// be counted.
pub fn offer_all<P: Ported, S: Stage<P>>(
    stage: &mut S,
    ports: &Ports,
    players: &Players,
) -> Result<(), NoMemory>
    requires { let old = S.circuit stage.old in
        AreBetween ports.now.list old.ports players.now (map P.port_state old.primitives) }
    ensures ready { let r = rules_of P.behaviour P.settled P.port_state P.placed P.withdrawn in
        OnOk result ((w : Wiring _) → IsButForOffers r w (S.circuit stage.old)
        → S.circuit stage.new ≡ ready r (offer_for players.now) w) }
    ensures started { let new = S.circuit stage.new in
        let states = map P.port_state new.primitives in
        OnOk result (AreStarted ports.now.list new.ports players.now states) }
    ensures rounds { S.rounds stage.new ≡ S.rounds stage.old }
{
    offers_agree();
    let mut component = players.next_awake(0);
    while component < players.count() {
        if players.fresh(component) {
            offer_fresh(stage, ports, players, component)?;
        }
        component = players.next_awake(component + 1);
    }
    Ok(())
}
