//! Cells as they are kept.
ghost use Rattle.std.specs.Prelude.{◌≡◌, ◌<◌, IfOk, length, replicate, slice_index_or};
ghost use Rattle.reo_net_base.specs.Net.{Side, all_sides, net_of};
ghost use Rattle.reo_net_base.specs.Sides.{side_count};
ghost use Rattle.reo_trace.specs.cells.Cells.{AreCells};
ghost use Rattle.reo_trace.specs.cells.Texts.{befores, before_side, kept_bytes};

use reo_net_base::Primitive;
use reo_net_circuit::Circuit;
use reo_values::{List, NoMemory};
use std::alloc::Global;

/// The cells of all sides of a circuit, as the lines of its rounds show them, kept as text that is
/// patched.
#[derive(Drop)]
pub struct Cells {
    /// For each side the code of its cell: the row, or the greatest number for the jam row.
    pub(crate) shown: List<u32>,
    /// Two bytes for each side: what stands before its cell, and its cell where that is one byte.
    pub(crate) text: List<u8>,
    /// How many cells take more than one byte.
    pub(crate) wide: usize,
}

/// The code 0 for each of so many sides. `NoMemory` is out of memory.
fn first_codes(alloc: Global, count: usize) -> Result<List<u32>, NoMemory>
    ensures { IfOk result (λ shown. shown ≡ replicate count 0) }
{
    match vec![in alloc; 0; count] {
        Ok(shown) => Ok(List::from_vec(shown)),
        Err(_) => Err(NoMemory),
    }
}

/// What stands before the cell of a side.
fn before<P: Primitive>(circuit: &Circuit<P>, side: usize) -> u8
    requires { side < side_count (net_of P.behaviour circuit.now) }
    ensures { let sides = all_sides (net_of P.behaviour circuit.now).primitives in
        (e : Side) → result ≡ before_side (slice_index_or sides side e) }
{
    if circuit.owner(side).side == 0 {
        b' '
    } else {
        b'.'
    }
}

/// The bytes that are kept where each cell is 0. `NoMemory` is out of memory.
fn first_bytes<P: Primitive>(alloc: Global, circuit: &Circuit<P>) -> Result<List<u8>, NoMemory>
    ensures { let net = net_of P.behaviour circuit.now in
        IfOk result (λ text. text ≡ kept_bytes (befores net) (replicate (side_count net) 0)) }
{
    let mut text = List::new(alloc);
    for side in 0..circuit.sides() {
        text.push(before(circuit, side))?;
        text.push(b'0')?;
    }
    Ok(text)
}

impl Cells {
    /// Cells of a circuit, each of them 0. `NoMemory` is out of memory.
    pub fn new<P: Primitive>(alloc: Global, circuit: &Circuit<P>) -> Result<Cells, NoMemory>
        ensures { IfOk result (AreCells (net_of P.behaviour circuit.now)) }
    {
        let shown = first_codes(alloc, circuit.sides())?;
        let text = first_bytes(alloc, circuit)?;
        Ok(Cells {
            shown,
            text,
            wide: 0,
        })
    }
}
