//! Whether a list is the moves of rows and items.
ghost use Rattle.std.specs.Prelude.{◌≡◌, ◌<◌, ◌↔◌, IsTrue, None, length, option_copied, slice_index_or};
ghost use Rattle.reo_net_base.specs.declared.colouring.Move.{Move as Flow};
ghost use Rattle.reo_net_base.specs.Sides.{AreRowsOf};
ghost use Rattle.reo_net_base.specs.Net.{net_of, all_sides};
ghost use Rattle.reo_net_base.specs.Moves.{move_with, moves_at, moves_of};

use reo_net_base::{End, Move, Primitive};
use reo_net_circuit::Circuit;
use reo_values::{Value, same_item};

/// The item at a place, if there is one.
fn item_of(items: &[Option<Value>], place: usize) -> Option<&Value>
    ensures { option_copied result ≡ slice_index_or items.now place None }
{
    items.get(place)?.as_ref()
}

/// The item that flows at a port, if one does.
fn flowing<'a, P: Primitive>(
    circuit: &Circuit<P>,
    rows: &[u32],
    items: &'a [Option<Value>],
    port: usize,
) -> Option<&'a Value>
    requires port { port < circuit.now.ports }
    requires rows { AreRowsOf (net_of P.behaviour circuit.now) rows.now }
    ensures { let net = net_of P.behaviour circuit.now in
        move_with port (option_copied result) ≡ moves_at net rows.now items.entry.now port }
{
    circuit.known_ports();
    let end = End {
        primitive: port,
        end: 0,
    };
    if circuit.mark_at(rows, end).is_flow() {
        item_of(items, circuit.port_joint(port))
    } else {
        None
    }
}

/// Whether a move is of this port and this item.
fn is_move(found: &Move, port: usize, item: &Value) -> bool
    ensures { IsTrue result ↔ (found.now ≡ record { port = port; item = item.now }) }
{
    found.port == port && same_item(&found.item, item)
}

/// Whether a move of this port and this item stands at a place.
fn stands_at(moves: &[Move], place: usize, port: usize, item: &Value) -> bool
    ensures in_range { IsTrue result → place < length moves.now }
    ensures move_ { let move : Flow = record { port = port; item = item.now } in
        IsTrue result → (d : Flow) → slice_index_or moves.now place d ≡ move }
    ensures back { let move : Flow = record { port = port; item = item.now } in
        place < length moves.now → ((d : Flow) → slice_index_or moves.now place d ≡ move)
        → IsTrue result }
{
    place < moves.len() && is_move(&moves[place], port, item)
}

/// Whether a list is the moves of rows and items: the ports that flow, in order, with their items.
/// The list may be any. This takes no memory.
pub fn are_moves<P: Primitive>(
    circuit: &Circuit<P>,
    rows: &[u32],
    items: &[Option<Value>],
    moves: &[Move],
) -> bool
    requires { AreRowsOf (net_of P.behaviour circuit.now) rows.now }
    ensures { let net = net_of P.behaviour circuit.now in
        IsTrue result ↔ (moves.now ≡ moves_of net circuit.now.ports rows.now items.now) }
{
    let mut next = 0;
    for port in 0..circuit.ports() {
        if let Some(item) = flowing(circuit, rows, items, port) {
            if !stands_at(moves, next, port, item) {
                return false;
            }
            next += 1;
        }
    }
    next == moves.len()
}
