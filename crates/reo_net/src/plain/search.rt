//! The search, side by side.
ghost use Rattle.std.specs.Prelude.{◌≡◌, IfOk, OnOk, length, replicate, false};
ghost use Rattle.reo_net_base.specs.Net.{net_of};
ghost use Rattle.reo_net_base.specs.Sides.{side_count, AreRowsOf};
ghost use Rattle.reo_net_base.specs.Colouring.{RowsFit, IsColouring};
ghost use Rattle.reo_net_base.specs.First.{IsFirst};
ghost use Rattle.reo_net.specs.plain.Chosen.{Agrees, Improves};

use crate::colouring::{colour, compare};
use crate::plain::clash::clashes;
use crate::plain::jam::jammed;
use crate::plain::next::next_side;
use reo_net_base::{Colouring, Primitive};
use reo_net_circuit::Circuit;
use reo_values::{Copies, List, NoMemory};
use std::alloc::Global;

/// The better of a colouring and the one with these rows, if there is one.
fn improved<P: Primitive>(
    alloc: Global,
    circuit: &Circuit<P>,
    turn: u64,
    rows: &List<u32>,
    best: Colouring,
) -> Result<Colouring, NoMemory>
    requires rows { RowsFit (net_of P.behaviour circuit.now) rows.now }
    requires best { IsColouring (net_of P.behaviour circuit.now) best.rows best.items }
    ensures { let net = net_of P.behaviour circuit.now in IfOk result
        (λ found. Improves net turn
        (λ others. others ≡ rows.now) best.rows found.rows found.items) }
{
    let tried = rows.as_slice();
    match colour(alloc, circuit, tried)? {
        Some(items) => {
            let kept = best.rows.as_slice();
            if compare(circuit, turn, tried, kept).is_lt() {
                let rows = rows.copied(alloc)?;
                return Ok(Colouring { rows, items });
            }
            Ok(best)
        }
        None => Ok(best),
    }
}

/// The best of a colouring and all that have these rows at the chosen sides. It goes no further
/// where two chosen sides do not match.
fn best_from<P: Primitive>(
    alloc: Global,
    circuit: &Circuit<P>,
    turn: u64,
    rows: &mut List<u32>,
    chosen: &mut [bool],
    mut best: Colouring,
) -> Result<Colouring, NoMemory>
    requires rows { AreRowsOf (net_of P.behaviour circuit.now) rows.old }
    requires chosen { length chosen.old ≡ side_count (net_of P.behaviour circuit.now) }
    requires best { IsColouring (net_of P.behaviour circuit.now) best.rows best.items }
    ensures best { let net = net_of P.behaviour circuit.now in IfOk result
        (λ found. Improves net turn (Agrees chosen.old rows.old) best.rows found.rows found.items) }
    ensures rows { OnOk result (AreRowsOf (net_of P.behaviour circuit.now) rows.new) }
    ensures agree { OnOk result (Agrees chosen.old rows.old rows.new) }
    ensures chosen { OnOk result (chosen.new ≡ chosen.old) }
{
    if clashes(circuit, rows.as_slice(), chosen) {
        return Ok(best);
    }
    let Some(side) = next_side(circuit, chosen) else {
        return improved(alloc, circuit, turn, rows, best);
    };
    chosen[side] = true;
    for row in 0..circuit.rows(side) {
        *rows.at_mut(side) = row as u32;
        best = best_from(alloc, circuit, turn, rows, chosen, best)?;
    }
    chosen[side] = false;
    Ok(best)
}

/// A mark for each side, none of which is chosen.
fn none_chosen<P: Primitive>(alloc: Global, circuit: &Circuit<P>) -> Result<Vec<bool>, NoMemory>
    ensures { let net = net_of P.behaviour circuit.now in
        IfOk result (λ marks. marks.items ≡ replicate (side_count net) false) }
{
    match vec![in alloc; false; circuit.sides()] {
        Ok(marks) => Ok(marks),
        Err(_) => Err(NoMemory),
    }
}

/// The first colouring of a circuit in the round of this number, which counts from 1. `NoMemory` is
/// out of memory.
pub fn plain_first<P: Primitive>(
    alloc: Global,
    circuit: &Circuit<P>,
    turn: u64,
) -> Result<Colouring, NoMemory>
    ensures { let net = net_of P.behaviour circuit.now in
        IfOk result (λ found. IsFirst net turn found.rows found.items) }
{
    let jam = jammed(alloc, circuit)?;
    let mut rows = jam.rows.copied(alloc)?;
    let mut chosen = none_chosen(alloc, circuit)?;
    best_from(alloc, circuit, turn, &mut rows, &mut chosen, jam)
}
