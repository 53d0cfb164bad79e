//! What flows at the ports, by the items at their joints.
ghost use Rattle.std.specs.Prelude.{◌≡◌, ◌<◌, ◌++◌, ℕ, List as Listed, IfOk, OnOk, None, length, option_copied, slice_index_or};
ghost use Rattle.reo_net_base.specs.Colouring.{IsColouring};
ghost use Rattle.reo_net_base.specs.Moves.{moves_at, moves_of};
ghost use Rattle.reo_net_base.specs.Net.{net_of};
ghost use Rattle.reo_flows.specs.stepping.Changes.{AreThoseThatFlowed};

use crate::copies::copied;
use reo_flags::Flags;
use reo_net_base::{Move, Primitive};
use reo_net_circuit::Circuit;
use reo_values::{List, NoMemory, Value};

/// The item at a place, if there is one.
fn item_of(items: &[Option<Value>], place: usize) -> Option<&Value>
    ensures { option_copied result ≡ slice_index_or items.now place None }
{
    items.get(place)?.as_ref()
}

/// Adds what flows at a port: the item at its joint, if there is one.
fn add_move<P: Primitive>(
    moves: &mut List<Move>,
    circuit: &Circuit<P>,
    items: &[Option<Value>],
    port: usize,
) -> Result<(), NoMemory>
    requires port { port < circuit.now.ports }
    ensures { let net = net_of P.behaviour circuit.now in
        (rows : Listed ℕ) → IsColouring net rows items.now
        → OnOk result (moves.new ≡ moves.old ++ moves_at net rows items.now port) }
{
    circuit.known();
    circuit.known_ports();
    let joint = circuit.port_joint(port);
    match item_of(items, joint) {
        None => Ok(()),
        Some(value) => {
            let item = copied(value)?;
            moves.push(Move { port, item })
        }
    }
}

/// The ports that flow, in order, with their items, where exactly those primitives are marked of
/// which some end flows. They are written over other moves. `NoMemory` is out of memory.
pub(crate) fn moves_of_marked<P: Primitive>(
    circuit: &Circuit<P>,
    items: &[Option<Value>],
    marks: &Flags,
    over: List<Move>,
) -> Result<List<Move>, NoMemory>
    requires one_each { length marks.now ≡ length circuit.now.primitives }
    ensures { let net = net_of P.behaviour circuit.now in
        (rows : Listed ℕ) → IsColouring net rows items.now
        → AreThoseThatFlowed net rows marks.now
        → IfOk result (λ moves. moves ≡ moves_of net circuit.now.ports rows items.now) }
{
    circuit.known_ports();
    let mut moves = over;
    moves.clear();
    let mut port = marks.next_set(0);
    while port < circuit.ports() {
        add_move(&mut moves, circuit, items, port)?;
        port = marks.next_set(port + 1);
    }
    Ok(moves)
}
