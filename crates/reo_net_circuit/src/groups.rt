//! Groups of rows in a circuit.
ghost use Rattle.std.specs.Prelude.{◌≡◌, ◌<◌, length, slice_index_or};
ghost use Rattle.reo_net_base.specs.Behaviour.{IsEndOf};
ghost use Rattle.reo_net_base.specs.Net.{net_of, all_sides, Side, row_count};

use crate::circuit::Circuit;
use reo_net_base::{Mark, Primitive};

impl<P: Primitive> Circuit<P> {
    /// How many groups the rows of a side stand in. The rows of a group say the same of each end,
    /// but that each may be apart at one end.
    pub fn groups(&self, side: usize) -> usize
        requires { side < length (all_sides (net_of P.behaviour self.now).primitives) }
        ensures { let sides = all_sides (net_of P.behaviour self.now).primitives in
            (e : Side) → let s = slice_index_or sides side e in result ≡ s.of.groups s.number }
    {
        let place = self.owner(side);
        self.primitive(place.primitive).groups(place.side)
    }

    /// The group of a row of a side.
    pub fn group(&self, side: usize, row: usize) -> usize
        requires side { side < length (all_sides (net_of P.behaviour self.now).primitives) }
        requires row { let sides = all_sides (net_of P.behaviour self.now).primitives in
            (e : Side) → row < row_count (slice_index_or sides side e) }
        ensures group { let sides = all_sides (net_of P.behaviour self.now).primitives in
            (e : Side) → let s = slice_index_or sides side e in result ≡ s.of.group s.number row }
        ensures in_range { let sides = all_sides (net_of P.behaviour self.now).primitives in
            (e : Side) → let s = slice_index_or sides side e in result < s.of.groups s.number }
    {
        self.known();
        let place = self.owner(side);
        self.primitive(place.primitive).group(place.side, row)
    }

    /// What the rows of a group of a side say of an end, but for those that are apart there.
    pub fn common(&self, side: usize, group: usize, end: usize) -> Mark
        requires side { side < length (all_sides (net_of P.behaviour self.now).primitives) }
        requires group { let sides = all_sides (net_of P.behaviour self.now).primitives in
            (e : Side) → let s = slice_index_or sides side e in group < s.of.groups s.number }
        requires end { let sides = all_sides (net_of P.behaviour self.now).primitives in
            (e : Side) → let s = slice_index_or sides side e in IsEndOf s.of s.number end }
        ensures { let sides = all_sides (net_of P.behaviour self.now).primitives in
            (e : Side) → let s = slice_index_or sides side e in
            result ≡ s.of.common s.number group end }
    {
        let place = self.owner(side);
        self.primitive(place.primitive)
            .common(place.side, group, end)
    }

    /// The one end at which a row of a side is not as its group, if there is one.
    pub fn apart(&self, side: usize, row: usize) -> Option<usize>
        requires side { side < length (all_sides (net_of P.behaviour self.now).primitives) }
        requires row { let sides = all_sides (net_of P.behaviour self.now).primitives in
            (e : Side) → row < row_count (slice_index_or sides side e) }
        ensures { let sides = all_sides (net_of P.behaviour self.now).primitives in
            (e : Side) → let s = slice_index_or sides side e in result ≡ s.of.apart s.number row }
    {
        let place = self.owner(side);
        self.primitive(place.primitive).apart(place.side, row)
    }
}
