//! Plans by colourings.
ghost use Rattle.std.specs.Prelude.{◌≡◌, ◌<◌, IfOk};
ghost use Rattle.reo_net_base.specs.Net.{net_of};
ghost use Rattle.reo_net_base.specs.Sides.{AreRowsOf, side_count};
ghost use Rattle.reo_net_laws.specs.Jams.{jams};
ghost use Rattle.reo_net_base.specs.Colouring.{IsColouring};
ghost use Rattle.reo_rounds.specs.Plans.{jammed_sides, ShowsItsOwn};

use crate::plan::Plan;
use reo_net_base::{Colouring, Primitive};
use reo_net_circuit::{Circuit, moves};
use reo_trace::is_idle;
use reo_values::NoMemory;
use std::alloc::Global;

/// Whether a side has its jam row.
pub fn is_jammed<P: Primitive>(circuit: &Circuit<P>, rows: &[u32], side: usize) -> bool
    requires rows { AreRowsOf (net_of P.behaviour circuit.now) rows.now }
    requires side { side < side_count (net_of P.behaviour circuit.now) }
    ensures { result ≡ jams (net_of P.behaviour circuit.now) rows.now side }
{
    circuit.row(rows, side) + 1 == circuit.rows(side)
}

/// How many sides have their jam row.
#[tactic(auto, using(crate::proofs::CountLemmas::count_more))]
pub fn jammed_sides<P: Primitive>(circuit: &Circuit<P>, rows: &[u32]) -> usize
    requires { AreRowsOf (net_of P.behaviour circuit.now) rows.now }
    ensures { result ≡ jammed_sides (net_of P.behaviour circuit.now) rows.now }
{
    let mut count = 0;
    for side in 0..circuit.sides() {
        if is_jammed(circuit, rows, side) {
            count += 1;
        }
    }
    count
}

/// The plan of a round with this colouring: its moves, whether nothing flows by it, and how many
/// sides jam. `NoMemory` is out of memory.
pub fn plan_with<P: Primitive>(
    alloc: Global,
    circuit: &Circuit<P>,
    colouring: Colouring,
) -> Result<Plan, NoMemory>
    requires { IsColouring (net_of P.behaviour circuit.now) colouring.rows colouring.items }
    ensures shows { IfOk result (ShowsItsOwn (net_of P.behaviour circuit.now) circuit.now.ports) }
    ensures same { IfOk result (λ plan. plan.colouring ≡ colouring) }
{
    let moves = moves(alloc, circuit, &colouring)?;
    let rows = colouring.rows.as_slice();
    let idle = is_idle(circuit, rows);
    let jammed = jammed_sides(circuit, rows);
    Ok(Plan {
        colouring,
        moves,
        idle,
        jammed,
    })
}
