//! What a planned round comes to.
ghost use Rattle.std.specs.Prelude.{◌≡◌, ◌<◌, ◌+◌, ◌^◌, ◌&&◌, not, cond, Some, None, map};
ghost use Rattle.reo_net_base.specs.Net.{net_of};
ghost use Rattle.reo_net_base.specs.Step.{stepped};
ghost use Rattle.reo_net_base.specs.Wired.{ArePorts, IsWired};
ghost use Rattle.reo_kinds_laws.specs.move_laws.Moved.{MovesAreFlows};
ghost use Rattle.reo_players.specs.Players.{all_done};
ghost use Rattle.reo_trace.specs.declared.line.Ending.TheVariants.{Done as IsDone, Stuck as IsStuck};
ghost use Rattle.reo_rounds.specs.Plans.{Suits};
ghost use Rattle.reo_rounds.specs.Rules.{rules_of};
ghost use Rattle.reo_runs.specs.Round.{advanced};
ghost use Rattle.reo_runs.specs.Run.{over_after};
ghost use Rattle.reo_runs.specs.at_ports.Pending.{IsButForOffers};
ghost use Rattle.reo_runs.specs.at_ports.Between.{AreBetween, AreStarted};

use crate::at_ports::advancing::advance_all;
use reo_kinds_laws::moves_are_flows;
use reo_net_base::{Move, Ported, Ports, Restoring};
use reo_players::Players;
use reo_rounds::{Done, Plan, Stage};
use reo_trace::Ending;
use reo_values::List;

/// What a round has come to: the items that moved at ports, and how the run is over, if it is.
#[derive(Drop)]
pub struct Carried {
    pub moves: List<Move>,
    pub over: Option<Ending>,
}

/// How the run is over after a round, if it is: done where every component is done, else stuck
/// where the round was idle and no component counted in it.
pub fn over_after(turn: u64, idle: bool, counted: bool, players: &Players) -> Option<Ending>
    ensures { let stuck = cond (idle && not counted) (Some (IsStuck turn)) None in
        result ≡ cond (all_done players.now) (Some (IsDone turn)) stuck }
{
    if players.all_done() {
        Some(Ending::Done { rounds: turn })
    } else if idle && !counted {
        Some(Ending::Stuck { rounds: turn })
    } else {
        None
    }
}

/// What holds of the net of each circuit on which rounds are made, and of its moves.
pub fn known_moves<P: Ported, S: Stage<P>>(stage: &S)
    ensures wired { IsWired (net_of P.behaviour (S.circuit stage.now)) }
    ensures ports { let now = S.circuit stage.now in
        ArePorts (net_of P.behaviour now).primitives now.ports }
    ensures flows { MovesAreFlows }
{
    stage.circuit().known();
    stage.circuit().known_ports();
    moves_are_flows();
}

/// Makes a planned round: the circuit steps, and each component goes on. This takes no memory.
pub fn carry_out<P: Restoring, S: Stage<P>>(
    stage: &mut S,
    players: &mut Players,
    ports: &Ports,
    plan: Plan,
) -> Carried
    requires started { let old = S.circuit stage.old in
        AreStarted ports.now.list old.ports players.old (map P.port_state old.primitives) }
    requires suits { let old = S.circuit stage.old in
        Suits (net_of P.behaviour old) old.ports plan }
    requires few { S.rounds stage.old < 2 ^ 63 }
    ensures players { let net = net_of P.behaviour (S.circuit stage.old) in
        players.new ≡ advanced net plan.colouring.rows players.old }
    ensures circuit { let r = rules_of P.behaviour P.settled P.port_state P.placed P.withdrawn in
        let old = S.circuit stage.old in
        let rows = plan.colouring.rows in
        let primitives = stepped P.behaviour P.settled old rows plan.colouring.items in
        IsButForOffers r (record old { primitives = primitives }) (S.circuit stage.new) }
    ensures between { let new = S.circuit stage.new in
        AreBetween ports.now.list new.ports players.new (map P.port_state new.primitives) }
    ensures rounds { S.rounds stage.new ≡ S.rounds stage.old + 1 }
    ensures over { let turn = S.rounds stage.old + 1 in
        result.over ≡ over_after turn plan.idle players.old players.new }
    ensures moves { result.moves ≡ plan.moves }
{
    let counted = players.someone_counts();
    known_moves(stage);
    let Done {
        moves,
        idle,
        jammed,
    } = stage.make(plan);
    let _ = jammed;
    advance_all(stage, ports, players, moves.as_slice());
    let over = over_after(stage.rounds(), idle, counted, players);
    Carried { moves, over }
}
