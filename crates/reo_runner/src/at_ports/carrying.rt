//! What a round that stands comes to.
ghost use Rattle.std.specs.Prelude.{◌≡◌, ◌<◌, ◌+◌, ◌^◌, map};
ghost use Rattle.reo_net_base.specs.Net.{net_of};
ghost use Rattle.reo_net_base.specs.Step.{stepped};
ghost use Rattle.reo_rounds.specs.Rules.{rules_of};
ghost use Rattle.reo_engine.specs.MadeWithin.{IsMadeRound};
ghost use Rattle.reo_runs.specs.Round.{advanced};
ghost use Rattle.reo_runs.specs.Run.{over_after};
ghost use Rattle.reo_runs.specs.at_ports.Pending.{IsButForOffers};
ghost use Rattle.reo_runs.specs.at_ports.Between.{AreBetween, AreStarted};

use reo_engine::{Engine, MadeRound};
use reo_net_base::{Ports, Restoring};
use reo_players::Players;
use reo_runs::{Carried, advance_all, known_moves, over_after};
use reo_trace::RoundLine;

/// Makes the round that stands, by the rows that are kept: the circuit steps, and each component
/// goes on. This takes no memory.
pub fn carry_on<P: Restoring>(
    engine: &mut Engine<P>,
    players: &mut Players,
    ports: &Ports,
    made_round: MadeRound,
) -> Carried
    requires started { let old = engine.old.circuit in
        AreStarted ports.now.list old.ports players.old (map P.port_state old.primitives) }
    requires is_made { let net = net_of P.behaviour engine.old.circuit in
        let turn = engine.old.rounds + 1 in
        IsMadeRound net engine.old.circuit.ports turn made_round }
    requires same { made_round.colouring.rows ≡ engine.old.kept.rows }
    requires few { engine.old.rounds < 2 ^ 63 }
    ensures players { let net = net_of P.behaviour engine.old.circuit in
        players.new ≡ advanced net made_round.colouring.rows players.old }
    ensures circuit { let r = rules_of P.behaviour P.settled P.port_state P.placed P.withdrawn in
        let old = engine.old.circuit in
        let colouring = made_round.colouring in
        let primitives = stepped P.behaviour P.settled old colouring.rows colouring.items in
        IsButForOffers r (record old { primitives = primitives }) engine.new.circuit }
    ensures between { let new = engine.new.circuit in
        AreBetween ports.now.list new.ports players.new (map P.port_state new.primitives) }
    ensures rounds { engine.new.rounds ≡ engine.old.rounds + 1 }
    ensures over { let turn = engine.old.rounds + 1 in
        result.over ≡ over_after turn made_round.line.idle players.old players.new }
    ensures moves { result.moves ≡ made_round.line.moves }
{
    let counted = players.someone_counts();
    known_moves(engine);
    let RoundLine {
        round,
        idle,
        moves,
        entries,
    } = engine.finish_round(made_round);
    let _ = (round, entries);
    advance_all(engine, ports, players, moves.as_slice());
    let over = over_after(engine.rounds(), idle, counted, players);
    Carried { moves, over }
}
