//! Cells become those of other rows.
ghost use Rattle.std.specs.Prelude.{◌≡◌, ◌+◌, ◌*◌, ◌<◌, ◌≤◌, ◌^◌, ℕ, true, false, cond, length, set, slice_index};
ghost use Rattle.reo_net_base.specs.Net.{Net, net_of};
ghost use Rattle.reo_net_base.specs.Sides.{AreRowsOf, side_count};
ghost use Rattle.reo_net_laws.specs.Jams.{jams};
ghost use Rattle.reo_trace.specs.cells.Cells.{AreBrought, AreCells, HasTaken};
ghost use Rattle.reo_trace.specs.cells.Texts.{is_wide};

use crate::cells::Cells;
use crate::cells::code::{byte_of, code_of, is_wide};
use reo_net_base::Primitive;
use reo_net_circuit::Circuit;
use reo_values::List;

impl Cells {
    /// Counts anew how many cells are wide, where one of a code becomes one of another.
    fn recount(&mut self, was: u32, code: u32)
        requires some { is_wide was ≡ true → 1 ≤ self.old.wide }
        requires few { self.old.wide < 2 ^ 63 }
        ensures counted { self.new.wide + cond (is_wide was) 1 0
            ≡ self.old.wide + cond (is_wide code) 1 0 }
        ensures stays { self.new ≡ record self.old { wide = self.new.wide } }
    {
        self.wide = self.wide + usize::from(is_wide(code)) - usize::from(is_wide(was));
    }

    /// Puts the code of a cell, and the byte that is kept of it, at a side.
    fn put(&mut self, side: usize, code: u32, byte: u8)
        requires side { side < length self.old.shown }
        requires place { 2 * side + 1 < length self.old.text }
        ensures { self.new ≡ record self.old {
          shown = set self.old.shown side code;
          text = set self.old.text (2 * side + 1) byte;
        } }
    {
        let _bytes = self.text.len();
        *self.shown.at_mut(side) = code;
        *self.text.at_mut(2 * side + 1) = byte;
    }

    /// Shows the cell of this code at a side.
    fn show(&mut self, side: usize, code: u32)
        requires cells { (net : Net) × AreCells net self.old }
        requires side { side < length self.old.shown }
        ensures cells { (net : Net) → AreCells net self.old → AreCells net self.new }
        ensures shown { self.new.shown ≡ set self.old.shown side code }
    {
        let was = *self.shown.at(side);
        if was == code {
            return;
        }
        if code < 10 && was < 10 {
            self.put(side, code, b'0' + code as u8);
            return;
        }
        let _bytes = self.text.len();
        self.recount(was, code);
        self.put(side, code, byte_of(code));
    }

    /// The cells of these sides become those of these rows, and a list takes these rows there. A
    /// cell that is as it was costs no more than a look. This takes no memory.
    pub fn renew<P: Primitive>(
        &mut self,
        circuit: &Circuit<P>,
        rows: &[u32],
        sides: &[usize],
        list: &mut List<u32>,
    )
        requires cells { AreCells (net_of P.behaviour circuit.now) self.old }
        requires rows { AreRowsOf (net_of P.behaviour circuit.now) rows.now }
        requires sides { let net = net_of P.behaviour circuit.now in
            (m : ℕ) → m < length sides.now → slice_index sides.now m < side_count net }
        requires one_row { length list.old ≡ length rows.now }
        ensures cells { AreCells (net_of P.behaviour circuit.now) self.new }
        ensures brought { AreBrought (net_of P.behaviour circuit.now) rows.now sides.now
            self.old self.new }
        ensures written { HasTaken rows.now sides.now list.old list.new }
    {
        for index in 0..sides.len() {
            let side = sides[index];
            *list.at_mut(side) = rows[side];
            self.show(side, code_of(circuit, rows, side));
        }
    }

    /// The cells of these sides, none of which has its jam row, become those of these rows, and a
    /// list takes these rows there. A cell that is as it was costs no more than a look. This takes
    /// no memory.
    pub fn renew_plain<P: Primitive>(
        &mut self,
        circuit: &Circuit<P>,
        rows: &[u32],
        sides: &[usize],
        list: &mut List<u32>,
    )
        requires cells { AreCells (net_of P.behaviour circuit.now) self.old }
        requires rows { AreRowsOf (net_of P.behaviour circuit.now) rows.now }
        requires sides { let net = net_of P.behaviour circuit.now in
            (m : ℕ) → m < length sides.now → slice_index sides.now m < side_count net }
        requires plain { let net = net_of P.behaviour circuit.now in (m : ℕ)
            → m < length sides.now → jams net rows.now (slice_index sides.now m) ≡ false }
        requires one_row { length list.old ≡ length rows.now }
        ensures cells { AreCells (net_of P.behaviour circuit.now) self.new }
        ensures brought { AreBrought (net_of P.behaviour circuit.now) rows.now sides.now
            self.old self.new }
        ensures written { HasTaken rows.now sides.now list.old list.new }
    {
        let _ = circuit;
        for index in 0..sides.len() {
            let side = sides[index];
            let row = rows[side];
            *list.at_mut(side) = row;
            self.show(side, row);
        }
    }
}
