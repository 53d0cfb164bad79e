//! Sides at whose ends the marks of one row are left alone.
ghost use Rattle.std.specs.Prelude.{◌≡◌, ◌+◌, ◌<◌, IfSome, length, true, false};
ghost use Rattle.reo_net_base.specs.declared.form.Form.TheVariants.{Single, Double, Replicating};
ghost use Rattle.reo_mark_sets.specs.Listed.{is_single};
ghost use Rattle.reo_mark_sets.specs.PlainMarks.{marks_at, partner};
ghost use Rattle.reo_mark_sets.specs.Standing.{ArePlaces, IsFixed, IsLeastRow, IsSole, is_usual, width_by};

use crate::listed::{first_one, first_two};
use crate::sets::{MarkSets, partner};
use reo_net_base::{Branches, Form, Table};

impl MarkSets {
    /// Whether no two marks are at a place, and one meets one at the other end of the joint.
    fn is_sole(&self, place: usize) -> bool
        requires place { place < length self.now }
        requires partner { partner place < length self.now }
        ensures { result ≡ true → IsSole self.now place }
    {
        let marks = self.at(place);
        marks.is_sole() & marks.met(self.at(partner(place))).is_some()
    }

    /// At a side with one end.
    fn fixed_single(&self, table: Table, places: &[usize]) -> Option<usize>
        requires width { length places.now ≡ 1 }
        requires places { ArePlaces (length self.now) places.now }
        requires usual { is_single table ≡ true }
        ensures { IfSome result (λ row. IsFixed (Single table) places.now row self.now) }
    {
        let first = first_one(table, self.at(places[0]));
        if first.fits & self.is_sole(places[0]) {
            Some(first.row)
        } else {
            None
        }
    }

    /// At a side with two ends.
    fn fixed_double(&self, table: Table, places: &[usize]) -> Option<usize>
        requires width { length places.now ≡ 2 }
        requires places { ArePlaces (length self.now) places.now }
        requires usual { is_single table ≡ false }
        ensures { IfSome result (λ row. IsFixed (Double table) places.now row self.now) }
    {
        let first = first_two(table, self.at(places[0]), self.at(places[1]));
        if first.fits & (self.is_sole(places[0]) & self.is_sole(places[1])) {
            Some(first.row)
        } else {
            None
        }
    }

    /// Whether the marks of a row, which is the first to stand at a side, are alone there.
    fn fixed_at(&self, form: Form, places: &[usize], row: usize) -> Option<usize>
        requires places { ArePlaces (length self.now) places.now }
        requires first { IsLeastRow form places.now self.now row }
        ensures { IfSome result (λ row. IsFixed form places.now row self.now) }
    {
        for end in 0..places.len() {
            let place = places[end];
            if !(self.at(place).has(form.mark(row, end)) & self.is_sole(place)) {
                return None;
            }
        }
        Some(row)
    }

    /// Whether all ends of a replicator flow.
    fn all_flow(&self, branches: Branches, places: &[usize]) -> Option<usize>
        requires places { ArePlaces (length self.now) places.now }
        requires first { IsLeastRow (Replicating branches) places.now self.now 0 }
        ensures { IfSome result (λ row. IsFixed (Replicating branches) places.now row self.now) }
    {
        let _ = branches;
        for end in 0..places.len() {
            let place = places[end];
            if !(self.at(place).flow & self.is_sole(place)) {
                return None;
            }
        }
        Some(0)
    }

    /// At a replicator.
    fn fixed_replicating(&self, branches: Branches, places: &[usize]) -> Option<usize>
        requires width { length places.now ≡ branches.count + 1 }
        requires places { ArePlaces (length self.now) places.now }
        ensures { IfSome result (λ row. IsFixed (Replicating branches) places.now row self.now) }
    {
        let row = self.first_replicating(branches, places);
        if row == 0 {
            self.all_flow(branches, places)
        } else {
            self.fixed_at(Form::Replicating(branches), places, row)
        }
    }

    /// The row whose marks are left alone at the ends of a side, whose table is of this form, if
    /// each of them meets one at the other end of its joint.
    pub fn fixed_row(&self, form: Form, places: &[usize]) -> Option<usize>
        requires width { length places.now ≡ width_by form }
        requires places { ArePlaces (length self.now) places.now }
        requires usual { is_usual form ≡ true }
        ensures { IfSome result (λ row. IsFixed form places.now row self.now) }
    {
        match form {
            Form::Single(table) => self.fixed_single(table, places),
            Form::Double(table) => self.fixed_double(table, places),
            Form::Merging(branches) => {
                self.fixed_at(form, places, self.first_merging(branches, places))
            }
            Form::Replicating(branches) => self.fixed_replicating(branches, places),
        }
    }
}
