//! One round of a run.
ghost use Rattle.std.specs.Prelude.{◌≡◌, ◌≤◌, ◌<◌, ◌+◌, ◌^◌, map, IfOk, OnOk, IfErr, OnErr, IsErrOf};
ghost use Rattle.reo_io.specs.Causes.{Rose};
ghost use Rattle.reo_io.specs.Sinks.{Appended, TookPart};
ghost use Rattle.reo_net_base.specs.Net.{Wiring, net_of};
ghost use Rattle.reo_net_base.specs.Step.{stepped};
ghost use Rattle.reo_players.specs.Players.{someone_counts};
ghost use Rattle.reo_runner.specs.at_ports.Engines.{IsMadeRound};
ghost use Rattle.reo_rounds.specs.Rules.{rules_of};
ghost use Rattle.reo_runs.specs.Round.{State, advanced};
ghost use Rattle.reo_runs.specs.Run.{over_after};
ghost use Rattle.reo_runs.specs.at_ports.Pending.{IsButForOffers};
ghost use Rattle.reo_runs.specs.at_ports.Between.{AreBetween, AreStarted};
ghost use Rattle.reo_runner.specs.Rounds.{PlayedRound, IsRoundFault, IsTallied, IsSmall};
ghost use Rattle.reo_runner.specs.declared.planning.RoundFault.TheVariants.{Failed as SinkFailed};

use crate::at_ports::{Engine, MadeRound, carry_on};
use crate::outcome::{Limits, Tally};
use crate::planning::{RoundFault, make_next};
use reo_io::{Sink, SinkFault, put_all};
use reo_net_base::{Ports, Restoring};
use reo_players::Players;
use reo_runs::{Carried, offer_all};
use reo_steps::Steps;
use reo_trace::Ending;
use std::alloc::Global;
use std::sync::ledger::Ledger;

/// A round that was made: what has moved so far, and how the run is over, if it is.
#[derive(Clone, Copy)]
pub(crate) struct Played {
    pub tally: Tally,
    pub over: Option<Ending>,
}

/// Makes the round that stands, and counts what moved.
fn count_out<P: Restoring>(
    engine: &mut Engine<P>,
    players: &mut Players,
    ports: &Ports,
    made_round: MadeRound,
    tally: Tally,
) -> Played
    requires started { let old = engine.old.circuit in
        AreStarted ports.now.list old.ports players.old (map P.port_state old.primitives) }
    requires is_made { let net = net_of P.behaviour engine.old.circuit in
        let turn = engine.old.rounds + 1 in
        IsMadeRound net engine.old.circuit.ports turn made_round }
    requires same { made_round.colouring.rows ≡ engine.old.kept.rows }
    requires few { engine.old.rounds < 10 ^ 9 }
    requires small { IsSmall tally }
    requires fewer { tally.rounds < 10 ^ 9 }
    ensures players { let net = net_of P.behaviour engine.old.circuit in
        players.new ≡ advanced net made_round.colouring.rows players.old }
    ensures circuit { let r = rules_of P.behaviour P.settled P.port_state P.placed P.withdrawn in
        let old = engine.old.circuit in
        let colouring = made_round.colouring in
        let primitives = stepped P.behaviour P.settled old colouring.rows colouring.items in
        IsButForOffers r (record old { primitives = primitives }) engine.new.circuit }
    ensures between { let new = engine.new.circuit in
        AreBetween ports.now.list new.ports players.new (map P.port_state new.primitives) }
    ensures rounds { engine.new.rounds ≡ engine.old.rounds + 1 }
    ensures over { let turn = engine.old.rounds + 1 in
        result.over ≡ over_after turn made_round.line.idle players.old players.new }
    ensures tallied { IsTallied ports.now.list made_round.line.moves tally result.tally }
    ensures small { IsSmall result.tally }
{
    engine.circuit().known();
    let Carried { moves, over } = carry_on(engine, players, ports, made_round);
    let tally = tally.after(ports, moves.as_slice());
    engine.hand_back_moves(moves);
    Played { tally, over }
}

/// Writes the text of a line. After `Failed`, the one fault, a front of it was taken, and not the
/// whole; it comes only where the sink's count of faults rose, and that rises nowhere else.
fn write_line<S: Sink>(text: &[u8], out: &mut S) -> Result<(), SinkFault>
    ensures ok { OnOk result (Appended (S.told out.old) (S.told out.new) text.now) }
    ensures failed { OnErr result (TookPart (S.told out.old) (S.told out.new) text.now) }
    ensures cause { OnErr result (Rose (S.faults out.old) (S.faults out.new)) }
    ensures same { OnOk result (S.faults out.new ≡ S.faults out.old) }
    ensures later { S.faults out.old ≤ S.faults out.new }
{
    put_all(text, out)
}

/// Makes the round that stands next: the components make their offers, the round is planned and its
/// line written, and then the circuit steps and each component goes on.
///
/// # Errors
///
/// `Spent` and `Wide` name a part that is over. `Failed` comes only where the sink's count of
/// faults rose: a front of the line was taken, and not the whole. `NoMemory` is out of memory. But
/// for `Failed` the sink stays as it was. No round was made.
pub(crate) fn play_round<P: Restoring, L: Ledger, S: Sink>(
    alloc: Global,
    engine: &mut Engine<P>,
    players: &mut Players,
    ports: &Ports,
    limits: Limits,
    tally: Tally,
    steps: &mut Steps<L>,
    out: &mut S,
) -> Result<Played, RoundFault>
    requires between { let old = engine.old.circuit in
        AreBetween ports.now.list old.ports players.old (map P.port_state old.primitives) }
    requires budget { limits.budget < 10 ^ 18 }
    requires goes_on { engine.old.rounds < limits.rounds }
    requires few { limits.rounds ≤ 10 ^ 9 }
    requires small { IsSmall tally }
    requires count { tally.rounds ≡ engine.old.rounds }
    ensures made { let r = rules_of P.behaviour P.settled P.port_state P.placed P.withdrawn in
        let turn = engine.old.rounds + 1 in
        (w : Wiring _) → IsButForOffers r w engine.old.circuit
        → IfOk result (PlayedRound r ports.now.list limits.budget limits.rounds turn
        (record { circuit = w; players = players.old })
        (S.told out.old) (S.told out.new) tally engine.new.circuit players.new) }
    ensures fault { let r = rules_of P.behaviour P.settled P.port_state P.placed P.withdrawn in
        let turn = engine.old.rounds + 1 in
        (w : Wiring _) → IsButForOffers r w engine.old.circuit
        → IfErr result (IsRoundFault r ports.now.list limits.budget limits.rounds turn
        (record { circuit = w; players = players.old }) (S.told out.old) (S.told out.new)) }
    ensures between { let new = engine.new.circuit in
        let states = map P.port_state new.primitives in
        OnOk result (AreBetween ports.now.list new.ports players.new states) }
    ensures rounds { OnOk result (engine.new.rounds ≡ engine.old.rounds + 1) }
    ensures not_made { OnErr result (engine.new.rounds ≡ engine.old.rounds) }
    ensures small { IfOk result (λ made. IsSmall made.tally) }
    ensures cause { IsErrOf result SinkFailed → Rose (S.faults out.old) (S.faults out.new) }
    ensures later { S.faults out.old ≤ S.faults out.new }
    ensures risen { S.faults out.old < S.faults out.new → IsErrOf result SinkFailed }
{
    offer_all(engine, ports, players)?;
    let made = make_next(alloc, engine, ports, limits.budget, steps)?;
    let (made_round, text) = made;
    match write_line(text.as_slice(), out) {
        Ok(()) => {
            engine.hand_back(text);
            Ok(count_out(engine, players, ports, made_round, tally))
        }
        Err(_) => Err(RoundFault::Failed),
    }
}
