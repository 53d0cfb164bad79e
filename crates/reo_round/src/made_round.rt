//! What stands for a round.
ghost use Rattle.std.specs.Prelude.{◌≡◌, None, true, IfOk, length, set};
ghost use Rattle.reo_net_base.specs.Net.{net_of};
ghost use Rattle.reo_net_circuit.specs.found_ends.Ends.{AreEnds};
ghost use Rattle.reo_net_laws.specs.Knots.{AreKnots, knot_count};
ghost use Rattle.reo_flows.specs.flowing.Flowing.{AreFlowingIn};
ghost use Rattle.reo_round.specs.Feeds.{AreFeeds};
ghost use Rattle.reo_round.specs.Filling.{AreBlank, AreHeldAmong, AreMoving};
ghost use Rattle.reo_round.specs.MadeRound.{HaveFirstItems, IsMadeRound};

use crate::copies::clear;
use crate::feeds::Feeds;
use crate::filling::fill;
use crate::moving::moves_of_marked;
use reo_flags::Flags;
use reo_flows::mark_flowing;
use reo_knots::Knots;
use reo_net_base::{Colouring, Move, Primitive};
use reo_net_circuit::{Circuit, Ends};
use reo_trace::RoundLine;
use reo_values::{List, NoMemory, Value};
use std::alloc::Global;

/// What stands for a round: its rows with the items at all joints, the joints that flow, a mark for
/// each primitive, set exactly where some end flows, and the line of the round without its entries.
#[derive(Drop)]
pub struct MadeRound {
    pub colouring: Colouring,
    pub flowing: List<usize>,
    pub marks: Flags,
    pub line: RoundLine,
}

/// What a round that stands is written into: the rows of the round, a list of no items at the
/// joints, a list for the joints that flow, with any numbers, a mark for each primitive, with any
/// values, and a list of moves, any.
#[derive(Drop)]
pub struct Sheet {
    pub rows: List<u32>,
    pub items: List<Option<Value>>,
    pub flowing: List<usize>,
    pub marks: Flags,
    pub moves: List<Move>,
}

/// No item at any of so many joints. `NoMemory` is out of memory.
pub fn blank(alloc: Global, joints: usize) -> Result<List<Option<Value>>, NoMemory>
    ensures { IfOk result (AreBlank joints) }
{
    let mut items = List::new(alloc);
    for _ in 0..joints {
        items.push(None)?;
    }
    Ok(items)
}

/// What stands for the round of a number, written into a sheet whose rows are those of its first
/// colouring. For each part the joints are given that flow in it; a part in which none flows may be
/// left without a flag, and then is not gone to. `NoMemory` is out of memory.
pub fn make_round<P: Primitive>(
    alloc: Global,
    circuit: &Circuit<P>,
    knots: &Knots,
    ends: &Ends,
    feeds: &Feeds,
    lists: &List<List<usize>>,
    moving: &Flags,
    turn: u64,
    sheet: Sheet,
) -> Result<MadeRound, NoMemory>
    requires knots { AreKnots (net_of P.behaviour circuit.now) knots.now }
    requires ends { AreEnds (net_of P.behaviour circuit.now) ends.now }
    requires feeds { AreFeeds (net_of P.behaviour circuit.now) feeds.now }
    requires first { HaveFirstItems (net_of P.behaviour circuit.now) turn sheet.rows }
    requires lists { AreFlowingIn
        (net_of P.behaviour circuit.now) knots.now sheet.rows (λ _. true) lists.now }
    requires moving { AreMoving (knot_count knots.now) moving.now lists.now }
    requires items { AreBlank (length circuit.now.joints) sheet.items }
    requires marks { length sheet.marks ≡ length circuit.now.primitives }
    ensures is_made { let net = net_of P.behaviour circuit.now in
        IfOk result (IsMadeRound net circuit.now.ports turn) }
    ensures rows { IfOk result (λ made. made.colouring.rows ≡ sheet.rows) }
{
    circuit.known();
    let Sheet {
        rows,
        mut items,
        mut flowing,
        mut marks,
        moves,
    } = sheet;
    flowing.clear();
    fill(
        alloc,
        circuit,
        knots,
        ends,
        feeds,
        rows.as_slice(),
        lists,
        moving,
        &mut items,
        &mut flowing,
    )?;
    mark_flowing(circuit, rows.as_slice(), flowing.as_slice(), &mut marks);
    let moves = moves_of_marked(circuit, items.as_slice(), &marks, moves)?;
    let colouring = Colouring { rows, items };
    let idle = flowing.is_empty();
    Ok(MadeRound {
        colouring,
        flowing,
        marks,
        line: RoundLine {
            round: turn,
            idle,
            moves,
            entries: List::new(alloc),
        },
    })
}

/// Clears the item at a joint, if there is such a joint.
fn clear_at(items: &mut List<Option<Value>>, joint: usize)
    ensures { items.new ≡ set items.old joint None }
{
    if joint < items.len() {
        clear(items.at_mut(joint));
    }
}

/// The list of items again, of which those at the joints that flow are cleared. This takes no
/// memory.
pub fn cleared(items: List<Option<Value>>, flowing: &[usize]) -> List<Option<Value>>
    requires { AreHeldAmong items flowing.now }
    ensures { AreBlank (length items) result }
{
    let mut items = items;
    for index in 0..flowing.len() {
        clear_at(&mut items, flowing[index]);
    }
    items
}
