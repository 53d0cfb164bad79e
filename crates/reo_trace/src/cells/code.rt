//! Codes of cells.
ghost use Rattle.std.specs.Prelude.{◌≡◌, ◌<◌, ◌++◌, OnOk};
ghost use Rattle.reo_net_base.specs.Net.{net_of};
ghost use Rattle.reo_net_base.specs.Sides.{AreRowsOf, side_count};
ghost use Rattle.reo_trace.specs.cells.Cells.{code_at};
ghost use Rattle.reo_trace.specs.cells.Texts.{cell_byte, code_text, is_wide};

use crate::append_number;
use reo_net_base::Primitive;
use reo_net_circuit::Circuit;
use reo_values::{Bytes, NoMemory};

/// The code of the jam row's cell.
const JAM: u32 = u32::MAX;

/// The code of the cell of a side by these rows.
pub(crate) fn code_of<P: Primitive>(circuit: &Circuit<P>, rows: &[u32], side: usize) -> u32
    requires rows { AreRowsOf (net_of P.behaviour circuit.now) rows.now }
    requires side { side < side_count (net_of P.behaviour circuit.now) }
    ensures { result ≡ code_at (net_of P.behaviour circuit.now) rows.now side }
{
    let row = circuit.row(rows, side);
    if row + 1 == circuit.rows(side) {
        JAM
    } else {
        row as u32
    }
}

/// Whether the cell of a code takes more than one byte.
pub(crate) fn is_wide(code: u32) -> bool
    ensures { result ≡ is_wide code }
{
    10 <= code && code != JAM
}

/// The byte that is kept of the cell of a code.
pub(crate) fn byte_of(code: u32) -> u8
    ensures { result ≡ cell_byte code }
{
    if code == JAM {
        b'j'
    } else if 10 <= code {
        0
    } else {
        b'0' + code as u8
    }
}

/// Adds the cell of a code.
pub(crate) fn append_code(text: &mut Bytes, code: u32) -> Result<(), NoMemory>
    ensures { OnOk result (text.new ≡ text.old ++ code_text code) }
{
    if is_wide(code) {
        append_number(text, u64::from(code))
    } else {
        text.push(byte_of(code))
    }
}
