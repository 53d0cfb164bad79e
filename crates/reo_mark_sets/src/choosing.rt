//! Choosing the first row at a side.
ghost use Rattle.std.specs.Prelude.{◌≡◌, ◌+◌, ◌<◌, ◌≤◌, cond, length, true, false};
ghost use Rattle.reo_net_base.specs.declared.form.Form.{Form as SideForm};
ghost use Rattle.reo_net_base.specs.declared.form.Form.TheVariants.{Single, Double, Merging, Replicating};
ghost use Rattle.reo_net_base.specs.Forms.{rows_by, mark_by};
ghost use Rattle.reo_mark_sets.specs.Listed.{is_single};
ghost use Rattle.reo_mark_sets.specs.Standing.{ArePlaces, Stands, IsLeastRow, IsChosen, is_usual, width_by};

use crate::listed::{first_one, first_two};
use crate::marks::PlainMarks;
use crate::sets::MarkSets;
use reo_net_base::{Branches, Form, Mark, Table};

/// The first row of a merger with so many inputs by which nothing flows, where its output has some
/// marks.
fn still_row(inputs: usize, output: PlainMarks) -> usize
    requires { inputs ≤ 8192 }
    ensures { result ≡ cond output.required inputs (inputs + 1) }
{
    if output.required { inputs } else { inputs + 1 }
}

impl MarkSets {
    /// At a merger.
    pub(crate) fn first_merging(&self, branches: Branches, places: &[usize]) -> usize
        requires width { length places.now ≡ branches.count + 1 }
        requires places { ArePlaces (length self.now) places.now }
        ensures { IsLeastRow (Merging branches) places.now self.now result }
    {
        let count = branches.count;
        let output = self.at(places[count]);
        if !output.flow {
            return still_row(count, output);
        }
        match self.first_with(places, Mark::F, 0, count) {
            Some(input) => input,
            None => still_row(count, output),
        }
    }

    /// At a replicator.
    pub(crate) fn first_replicating(&self, branches: Branches, places: &[usize]) -> usize
        requires width { length places.now ≡ branches.count + 1 }
        requires places { ArePlaces (length self.now) places.now }
        ensures { IsLeastRow (Replicating branches) places.now self.now result }
    {
        let input = self.at(places[0]);
        if input.flow {
            0
        } else if input.required {
            1
        } else {
            match self.first_with(places, Mark::R, 1, branches.count + 1) {
                Some(output) => output + 1,
                None => 0,
            }
        }
    }

    /// Leaves at the ends of a side just the marks of a row that is the first to stand there.
    fn pin_all(&mut self, form: Form, places: &[usize], row: usize)
        requires places { ArePlaces (length self.old) places.now }
        requires first { IsLeastRow form places.now self.old row }
        ensures { IsChosen form places.now row self.old self.new }
    {
        for end in 0..places.len() {
            self.restrict(places[end], PlainMarks::just(form.mark(row, end)));
        }
    }

    /// Leaves at a side with one end just the mark of the first row that stands there, and answers
    /// which row it is. Where none stands it is some row.
    fn row_single(&mut self, table: Table, places: &[usize]) -> usize
        requires width { length places.now ≡ 1 }
        requires places { ArePlaces (length self.old) places.now }
        requires usual { is_single table ≡ true }
        ensures { IsChosen (Single table) places.now result self.old self.new }
    {
        let row = first_one(table, self.at(places[0])).row;
        self.restrict(places[0], PlainMarks::just(table.mark(row, 0)));
        row
    }

    /// The same at a side with two ends.
    fn row_double(&mut self, table: Table, places: &[usize]) -> usize
        requires width { length places.now ≡ 2 }
        requires places { ArePlaces (length self.old) places.now }
        requires usual { is_single table ≡ false }
        ensures { IsChosen (Double table) places.now result self.old self.new }
    {
        let row = first_two(table, self.at(places[0]), self.at(places[1])).row;
        self.restrict(places[0], PlainMarks::just(table.mark(row, 0)));
        self.restrict(places[1], PlainMarks::just(table.mark(row, 1)));
        row
    }

    /// Leaves at the ends of a side, whose table is of this form, just the marks of the first row
    /// that stands there, and answers which row it is. Where none stands it is some row.
    pub fn take_row(&mut self, form: Form, places: &[usize]) -> usize
        requires width { length places.now ≡ width_by form }
        requires places { ArePlaces (length self.old) places.now }
        requires usual { is_usual form ≡ true }
        ensures { IsChosen form places.now result self.old self.new }
    {
        match form {
            Form::Single(table) => self.row_single(table, places),
            Form::Double(table) => self.row_double(table, places),
            Form::Merging(branches) => {
                let row = self.first_merging(branches, places);
                self.pin_all(form, places, row);
                row
            }
            Form::Replicating(branches) => {
                let row = self.first_replicating(branches, places);
                self.pin_all(form, places, row);
                row
            }
        }
    }
}
