//! What flows at the ports.
ghost use Rattle.std.specs.Prelude.{◌≡◌, ◌<◌, ◌++◌, IfOk, OnOk, length, option_copied, slice_index_or, None};
ghost use Rattle.reo_net_base.specs.Net.{net_of, all_sides, end_of};
ghost use Rattle.reo_net_base.specs.Colouring.{AreRows};
ghost use Rattle.reo_net_base.specs.Moves.{item_at, moves_at, moves_of};

use crate::circuit::Circuit;
use reo_net_base::{Colouring, End, Move, Primitive};
use reo_values::{List, NoMemory, Value, copy};
use std::alloc::Global;

/// The item at a place, if there is one.
fn item_of(items: &[Option<Value>], place: usize) -> Option<&Value>
    ensures { option_copied result ≡ slice_index_or items.now place None }
{
    items.get(place)?.as_ref()
}

/// Adds what flows at a port.
fn add_move<P: Primitive>(
    moves: &mut List<Move>,
    circuit: &Circuit<P>,
    colouring: &Colouring,
    port: usize,
) -> Result<(), NoMemory>
    requires port { port < circuit.now.ports }
    requires rows { AreRows
        (all_sides (net_of P.behaviour circuit.now).primitives) colouring.now.rows }
    ensures { OnOk result
        (moves.new ≡ moves.old ++ moves_at
        (net_of P.behaviour circuit.now) colouring.now.rows colouring.now.items port) }
{
    circuit.known_ports();
    let end = End {
        primitive: port,
        end: 0,
    };
    let mark = circuit.mark_at(colouring.rows.as_slice(), end);
    if mark.is_flow() {
        let found = item_of(colouring.items.as_slice(), circuit.port_joint(port));
        if let Some(value) = found {
            let item = copy(value)?;
            moves.push(Move { port, item })?;
        }
    }
    Ok(())
}

/// The ports that flow, in order, with their items. `NoMemory` is out of memory.
pub fn moves<P: Primitive>(
    alloc: Global,
    circuit: &Circuit<P>,
    colouring: &Colouring,
) -> Result<List<Move>, NoMemory>
    requires { AreRows (all_sides (net_of P.behaviour circuit.now).primitives) colouring.now.rows }
    ensures { IfOk result (λ moves. moves ≡
        moves_of (net_of P.behaviour circuit.now) circuit.now.ports colouring.now.rows
        colouring.now.items) }
{
    let mut moves = List::new(alloc);
    for port in 0..circuit.ports() {
        add_move(&mut moves, circuit, colouring, port)?;
    }
    Ok(moves)
}
