//! Choosing the least class at a side.
ghost use Rattle.std.specs.Prelude.{◌≡◌, ◌+◌, ◌<◌, ◌≤◌, ℕ, MatchOption, length, slice_index, true, false};
ghost use Rattle.reo_net_base.specs.Branching.{beginning};
ghost use Rattle.reo_net_base.specs.declared.form.Form.TheVariants.{Single, Double, Merging, Replicating};
ghost use Rattle.reo_mark_sets.specs.Listed.{is_single};
ghost use Rattle.reo_mark_sets.specs.PlainMarks.{marks_at};
ghost use Rattle.reo_mark_sets.specs.Standing.{ArePlaces, IsClassed, is_usual, width_by};
ghost use Rattle.reo_mark_sets.specs.Tallies.{IsFirstInTurn};

use crate::listed::{classed_one, classed_two};
use crate::marks::PlainMarks;
use crate::sets::MarkSets;
use reo_net_base::{Branches, Form, Mark, Table, beginning};

/// All marks without flow.
const STILL: PlainMarks = PlainMarks {
    flow: false,
    given: true,
    required: true,
};

impl MarkSets {
    /// At a side with one end.
    fn class_single(&mut self, table: Table, places: &[usize])
        requires width { length places.now ≡ 1 }
        requires places { ArePlaces (length self.old) places.now }
        requires usual { is_single table ≡ true }
        ensures { (turn : ℕ) → IsClassed (Single table) places.now turn self.old self.new }
    {
        let least = classed_one(table, self.at(places[0]));
        self.put(places[0], least.marks);
    }

    /// At a side with two ends.
    fn class_double(&mut self, table: Table, places: &[usize])
        requires width { length places.now ≡ 2 }
        requires places { ArePlaces (length self.old) places.now }
        ensures { (turn : ℕ) → IsClassed (Double table) places.now turn self.old self.new }
    {
        let least = classed_two(table, self.at(places[0]), self.at(places[1]));
        self.put(places[0], least.pair.first);
        self.put(places[1], least.pair.second);
    }

    /// The first input that may flow, from the one on whose turn it is.
    fn first_in_turn(&self, branches: Branches, places: &[usize], turn: u64) -> Option<usize>
        requires width { length places.now ≡ branches.count + 1 }
        requires places { ArePlaces (length self.now) places.now }
        ensures { MatchOption result
            ((o : ℕ) → o < branches.count
            → (marks_at self.now (slice_index places.now o)).flow ≡ false)
            (IsFirstInTurn (λ o. (marks_at self.now (slice_index places.now o)).flow)
            branches.count turn) }
    {
        let count = branches.count;
        let begins = beginning(branches, turn);
        match self.first_with(places, Mark::F, begins, count) {
            Some(input) => Some(input),
            None => self.first_with(places, Mark::F, 0, begins),
        }
    }

    /// At a merger.
    fn class_merging(&mut self, branches: Branches, places: &[usize], turn: u64)
        requires width { length places.now ≡ branches.count + 1 }
        requires places { ArePlaces (length self.old) places.now }
        ensures { IsClassed (Merging branches) places.now turn self.old self.new }
    {
        let output = branches.count;
        if !self.at(places[output]).flow {
            return;
        }
        match self.first_in_turn(branches, places, turn) {
            Some(input) => {
                self.restrict(places[input], PlainMarks::just(Mark::F));
                self.restrict(places[output], PlainMarks::just(Mark::F));
            }
            None => self.restrict(places[output], STILL),
        }
    }

    /// At a replicator.
    fn class_replicating(&mut self, branches: Branches, places: &[usize])
        requires width { length places.now ≡ branches.count + 1 }
        requires places { ArePlaces (length self.old) places.now }
        ensures { (turn : ℕ) → IsClassed (Replicating branches) places.now turn self.old self.new }
    {
        if self.at(places[0]).flow {
            self.restrict(places[0], PlainMarks::just(Mark::F));
        }
    }

    /// Leaves at the ends of a side, whose table is of this form, the marks of the rows of the
    /// least class, in the round of a number, among those that stand: each mark is left of a row
    /// that stood and has the class, and only rows of the class stand then.
    pub fn take_class(&mut self, form: Form, places: &[usize], turn: u64)
        requires width { length places.now ≡ width_by form }
        requires places { ArePlaces (length self.old) places.now }
        requires usual { is_usual form ≡ true }
        ensures { IsClassed form places.now turn self.old self.new }
    {
        match form {
            Form::Single(table) => self.class_single(table, places),
            Form::Double(table) => self.class_double(table, places),
            Form::Merging(branches) => self.class_merging(branches, places, turn),
            Form::Replicating(branches) => self.class_replicating(branches, places),
        }
    }
}
