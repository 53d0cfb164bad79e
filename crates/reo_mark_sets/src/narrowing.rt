//! Narrowing at a side.
ghost use Rattle.std.specs.Prelude.{◌≡◌, ◌+◌, ◌<◌, ◌↔◌, IsTrue, length};
ghost use Rattle.reo_net_base.specs.declared.branches.Branches.{Branches as BranchCount};
ghost use Rattle.reo_net_base.specs.declared.form.Form.TheVariants.{Single, Double, Merging, Replicating};
ghost use Rattle.reo_mark_sets.specs.Standing.{ArePlaces, IsNarrowed, SomeWorks, width_by};

use crate::listed::{narrowed_one, narrowed_two};
use crate::sets::MarkSets;
use crate::stars::Star;
use reo_net_base::{Branches, Form, Table};

impl MarkSets {
    /// Narrows a side with one end.
    fn narrow_single(&mut self, table: Table, places: &[usize]) -> bool
        requires width { length places.now ≡ 1 }
        requires places { ArePlaces (length self.old) places.now }
        ensures narrowed { IsNarrowed (Single table) places.now self.old self.new }
        ensures some { IsTrue result ↔ SomeWorks (Single table) places.now self.old }
    {
        let open = self.open_at(places[0]);
        let marks = narrowed_one(table, open);
        self.leave(places[0], open, marks);
        marks.is_some()
    }

    /// Narrows a side with two ends.
    fn narrow_double(&mut self, table: Table, places: &[usize]) -> bool
        requires width { length places.now ≡ 2 }
        requires places { ArePlaces (length self.old) places.now }
        ensures narrowed { IsNarrowed (Double table) places.now self.old self.new }
        ensures some { IsTrue result ↔ SomeWorks (Double table) places.now self.old }
    {
        let first = self.open_at(places[0]);
        let second = self.open_at(places[1]);
        let pair = narrowed_two(table, first, second);
        self.leave(places[0], first, pair.first);
        self.leave(places[1], second, pair.second);
        pair.first.is_some()
    }

    /// Narrows a merger.
    fn narrow_merging(&mut self, branches: Branches, places: &[usize]) -> bool
        requires width { length places.now ≡ branches.count + 1 }
        requires places { ArePlaces (length self.old) places.now }
        ensures narrowed { IsNarrowed (Merging branches) places.now self.old self.new }
        ensures some { IsTrue result ↔ SomeWorks (Merging branches) places.now self.old }
    {
        self.narrow_star(Star::Merger, places, branches.count, 0, branches.count)
    }

    /// Narrows a replicator.
    fn narrow_replicating(&mut self, branches: Branches, places: &[usize]) -> bool
        requires width { length places.now ≡ branches.count + 1 }
        requires places { ArePlaces (length self.old) places.now }
        ensures narrowed { IsNarrowed (Replicating branches) places.now self.old self.new }
        ensures some { IsTrue result ↔ SomeWorks (Replicating branches) places.now self.old }
    {
        self.narrow_star(Star::Replicator, places, 0, 1, branches.count + 1)
    }

    /// Leaves at the ends of a side, whose table is of this form, just the marks that some row has
    /// by which each mark meets one at the other end of its joint. The answer is whether there is
    /// such a row.
    pub fn narrow(&mut self, form: Form, places: &[usize]) -> bool
        requires width { length places.now ≡ width_by form }
        requires places { ArePlaces (length self.old) places.now }
        ensures narrowed { IsNarrowed form places.now self.old self.new }
        ensures some { IsTrue result ↔ SomeWorks form places.now self.old }
    {
        match form {
            Form::Single(table) => self.narrow_single(table, places),
            Form::Double(table) => self.narrow_double(table, places),
            Form::Merging(branches) => self.narrow_merging(branches, places),
            Form::Replicating(branches) => self.narrow_replicating(branches, places),
        }
    }
}
