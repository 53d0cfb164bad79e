//! What rows say in a circuit.
ghost use Rattle.std.specs.Prelude.{◌≡◌, ◌↔◌, IsTrue, ◌<◌, ◌^◌, length, slice_index, slice_index_or};
ghost use Rattle.reo_net_base.specs.Net.{net_of, all_sides, row_at, mark_at, side_of_end, Side, row_count};
ghost use Rattle.reo_net_base.specs.Colouring.{AreRows};
ghost use Rattle.reo_net_base.specs.Wired.{IsEnd};

use crate::circuit::Circuit;
use reo_net_base::{End, Mark, Primitive};

impl<P: Primitive> Circuit<P> {
    /// How many rows the table of a side has, its jam row counted.
    pub fn rows(&self, side: usize) -> usize
        requires { side < length (all_sides (net_of P.behaviour self.now).primitives) }
        ensures count { let sides = all_sides (net_of P.behaviour self.now).primitives in
            (e : Side) → result ≡ row_count (slice_index_or sides side e) }
        ensures some { 0 < result }
        ensures few { result < 2 ^ 32 }
    {
        self.known();
        let place = self.owner(side);
        self.primitive(place.primitive).rows(place.side)
    }

    /// Whether a side leads: its class is compared before those of all sides.
    pub fn leads(&self, side: usize) -> bool
        requires { side < length (all_sides (net_of P.behaviour self.now).primitives) }
        ensures { let sides = all_sides (net_of P.behaviour self.now).primitives in
            (e : Side) → let s = slice_index_or sides side e in result ≡ s.of.leads s.number }
    {
        let place = self.owner(side);
        self.primitive(place.primitive).leads(place.side)
    }

    /// Whether there is one row for each side, each in the table of its side.
    pub fn are_rows(&self, rows: &[u32]) -> bool
        ensures { IsTrue result
            ↔ AreRows (all_sides (net_of P.behaviour self.now).primitives) rows.now }
    {
        if rows.len() != self.sides() {
            return false;
        }
        for side in 0..self.sides() {
            if rows[side] as usize >= self.rows(side) {
                return false;
            }
        }
        true
    }

    /// The row of a side.
    pub fn row(&self, rows: &[u32], side: usize) -> usize
        requires rows { AreRows (all_sides (net_of P.behaviour self.now).primitives) rows.now }
        requires side { side < length (all_sides (net_of P.behaviour self.now).primitives) }
        ensures row { result ≡ slice_index rows.now side }
        ensures in_table { (e : Side)
            → result < row_count
            (slice_index_or (all_sides (net_of P.behaviour self.now).primitives) side e) }
    {
        rows[side] as usize
    }

    /// The row of the side of an end.
    #[tactic(auto, unfolding(reo_net_base::specs::Net::row_at))]
    pub fn row_at(&self, rows: &[u32], end: End) -> usize
        requires end { IsEnd (net_of P.behaviour self.now).primitives end }
        requires rows { AreRows (all_sides (net_of P.behaviour self.now).primitives) rows.now }
        ensures row { result ≡ row_at (net_of P.behaviour self.now) rows.now end }
        ensures in_table { result < row_count (side_of_end (net_of P.behaviour self.now) end) }
    {
        self.row(rows, self.side_of(end))
    }

    /// The mark of an end.
    #[tactic(auto, unfolding(reo_net_base::specs::Net::mark_at, reo_net_base::specs::Net::row_at))]
    pub fn mark_at(&self, rows: &[u32], end: End) -> Mark
        requires end { IsEnd (net_of P.behaviour self.now).primitives end }
        requires rows { AreRows (all_sides (net_of P.behaviour self.now).primitives) rows.now }
        ensures { result ≡ mark_at (net_of P.behaviour self.now) rows.now end }
    {
        self.known();
        let row = self.row_at(rows, end);
        let primitive = self.primitive(end.primitive);
        primitive.mark(primitive.side_of(end.end), row, end.end)
    }

    /// The class of the row of a side, in the round of this number.
    pub fn class(&self, turn: u64, rows: &[u32], side: usize) -> usize
        requires rows { AreRows (all_sides (net_of P.behaviour self.now).primitives) rows.now }
        requires side { side < length (all_sides (net_of P.behaviour self.now).primitives) }
        ensures { (e : Side)
            → result ≡ (slice_index_or
            (all_sides (net_of P.behaviour self.now).primitives) side e).of.class
            (slice_index_or (all_sides (net_of P.behaviour self.now).primitives) side e).number
            (slice_index rows.now side) turn }
    {
        let place = self.owner(side);
        let row = self.row(rows, side);
        self.primitive(place.primitive).class(place.side, row, turn)
    }
}
