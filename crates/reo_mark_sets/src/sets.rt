//! The marks of all ends.
ghost use Rattle.std.specs.Prelude.{◌≡◌, ◌<◌, ◌+◌, ◌*◌, ℕ, IfOk, length, replicate, slice_index, slice_set};
ghost use Rattle.reo_mark_sets.specs.PlainMarks.{marks_at, open_at, partner, both, all_marks};
ghost use Rattle.reo_mark_sets.specs.Standing.{AreAll, width_by};

use crate::line::{Rank, WaitingLine};
use crate::marks::PlainMarks;
use reo_net_base::{Form, Table};
use reo_values::{List, NoMemory};
use std::alloc::Global;
use std::marker::Model;

/// The marks that the two ends of each joint may still have: those of its giver at the place twice
/// the number of the joint, and those of its taker at the place behind it.
///
/// Contracts see the marks by their places. The sides some of whose marks met one and meet none any
/// more wait to be narrowed.
#[derive(Drop)]
pub struct MarkSets {
    marks: List<PlainMarks>,
    keepers: List<usize>,
    line: WaitingLine,
}

impl Model for MarkSets {
    ghost use Rattle.std.specs.Prelude.{List};
    ghost use Rattle.reo_mark_sets.specs.declared.marks.PlainMarks.{PlainMarks as OfEnd};

    ghost Value = { List OfEnd };

    ghost view = { λ s. s.marks };
}

/// The other end of a joint.
pub(crate) fn partner(place: usize) -> usize
    ensures { result ≡ partner place }
{
    place ^ 1
}

/// So many times the same. `NoMemory` is out of memory.
pub(crate) fn filled<T: Copy + Drop>(
    alloc: Global,
    value: T,
    count: usize,
) -> Result<List<T>, NoMemory>
    ensures { IfOk result (λ made. length made ≡ count) }
{
    match vec![in alloc; value; count] {
        Ok(made) => Ok(List::from_vec(made)),
        Err(_) => Err(NoMemory),
    }
}

impl MarkSets {
    /// For joints at whose places these sides are, of so many. `NoMemory` is out of memory.
    pub fn new(alloc: Global, keepers: List<usize>, sides: usize) -> Result<MarkSets, NoMemory>
        ensures { IfOk result (λ made. length made ≡ length keepers) }
    {
        let marks = filled(alloc, PlainMarks::all(), keepers.len())?;
        let line = WaitingLine::new(alloc, sides)?;
        Ok(MarkSets {
            marks,
            keepers,
            line,
        })
    }

    /// All marks may stand at a place.
    fn reset(&mut self, place: usize)
        requires { place < length self.old }
        ensures { self.new ≡ slice_set self.old place all_marks }
    {
        *self.marks.at_mut(place) = PlainMarks::all();
    }

    /// All marks may stand at some places.
    fn reset_all(&mut self, places: &[usize])
        requires { (o : ℕ) → o < length places.now → slice_index places.now o < length self.old }
        ensures { AreAll places.now self.old self.new }
    {
        for end in 0..places.len() {
            self.reset(places[end]);
        }
    }

    /// All marks may stand at the place of a side with one end.
    fn reset_one(&mut self, places: &[usize])
        requires width { length places.now ≡ 1 }
        requires places { (o : ℕ) → o < length places.now
            → slice_index places.now o < length self.old }
        ensures { AreAll places.now self.old self.new }
    {
        self.reset(places[0]);
    }

    /// All marks may stand at the places of a side with two ends.
    fn reset_two(&mut self, places: &[usize])
        requires width { length places.now ≡ 2 }
        requires places { (o : ℕ) → o < length places.now
            → slice_index places.now o < length self.old }
        ensures { AreAll places.now self.old self.new }
    {
        self.reset(places[0]);
        self.reset(places[1]);
    }

    /// Begins with all marks at the ends of a side of a form, which waits if they are narrowed then
    /// by itself.
    pub fn begin(&mut self, side: usize, form: Form, places: &[usize])
        requires width { length places.now ≡ width_by form }
        requires places { (o : ℕ) → o < length places.now
            → slice_index places.now o < length self.old }
        ensures { AreAll places.now self.old self.new }
    {
        match form {
            Form::Single(_) => {
                self.line.begin(side, Rank::Soon, true);
                self.reset_one(places);
            }
            Form::Double(Table::Together) => {
                self.line.begin(side, Rank::Soon, false);
                self.reset_two(places);
            }
            Form::Double(_) => {
                self.line.begin(side, Rank::Later, true);
                self.reset_two(places);
            }
            Form::Merging(_) | Form::Replicating(_) => {
                self.line.begin(side, Rank::Last, true);
                self.reset_all(places);
            }
        }
    }

    /// Lets a side wait.
    pub fn wait(&mut self, side: usize)
        ensures { self.new ≡ self.old }
    {
        self.line.join(side);
    }

    /// Takes a side that waits, if there is one.
    pub fn next(&mut self) -> Option<usize>
        ensures { self.new ≡ self.old }
    {
        self.line.next()
    }

    /// No side waits any more.
    pub fn calm(&mut self)
        ensures { self.new ≡ self.old }
    {
        self.line.clear();
    }

    /// The marks at a place.
    pub fn at(&self, place: usize) -> PlainMarks
        requires { place < length self.now }
        ensures { result ≡ marks_at self.now place }
    {
        *self.marks.at(place)
    }

    /// Those at a place that meet one at the other end of the joint.
    pub fn open_at(&self, place: usize) -> PlainMarks
        requires place { place < length self.now }
        requires partner { partner place < length self.now }
        ensures { result ≡ open_at self.now place }
    {
        self.at(place).met(self.at(partner(place)))
    }

    /// Lets the side at a place wait, where the other end of the joint has these marks, and some of
    /// those at the place meet none of them.
    fn wake(&mut self, place: usize, theirs: PlainMarks)
        ensures { self.new ≡ self.old }
    {
        if place >= self.keepers.len() || place >= self.marks.len() {
            return;
        }
        if self.at(place).lose(theirs) {
            self.line.join(*self.keepers.at(place));
        }
    }

    /// Puts other marks at a place.
    fn change(&mut self, place: usize, marks: PlainMarks)
        requires { place < length self.old }
        ensures { self.new ≡ slice_set self.old place marks }
    {
        *self.marks.at_mut(place) = marks;
        self.wake(partner(place), marks);
    }

    /// Puts marks at a place. Where they are others, the side at the other end of the joint may
    /// wait.
    pub(crate) fn put(&mut self, place: usize, marks: PlainMarks)
        requires { place < length self.old }
        ensures { self.new ≡ slice_set self.old place marks }
    {
        if self.at(place) == marks {
            return;
        }
        self.change(place, marks);
    }

    /// Leaves at a place these of the marks that were open there. Where some go, the side at the
    /// other end of the joint may wait.
    pub(crate) fn leave(&mut self, place: usize, open: PlainMarks, marks: PlainMarks)
        requires { place < length self.old }
        ensures { self.new ≡ slice_set self.old place marks }
    {
        *self.marks.at_mut(place) = marks;
        if marks != open {
            self.wake(partner(place), marks);
        }
    }

    /// Leaves at a place just those of its marks that are allowed.
    pub(crate) fn restrict(&mut self, place: usize, allowed: PlainMarks)
        requires { place < length self.old }
        ensures { self.new ≡ slice_set self.old place (both (marks_at self.old place) allowed) }
    {
        self.put(place, self.at(place).both(allowed));
    }
}
