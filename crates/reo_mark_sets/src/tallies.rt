//! How often an end may or may not have a mark.
ghost use Rattle.std.specs.Prelude.{◌≡◌, ◌<◌, ◌≤◌, ℕ, MatchOption, length, slice_index, false};
ghost use Rattle.reo_net_base.specs.Rows.{alike};
ghost use Rattle.reo_mark_sets.specs.PlainMarks.{has, marks_at, open_at, partner};
ghost use Rattle.reo_mark_sets.specs.Tallies.{IsTally, IsFirstBetween};

use crate::sets::MarkSets;
use reo_net_base::Mark;

/// How often something holds of some ends: of none, of one alone, or of two at least.
#[derive(Clone, Copy)]
pub(crate) enum Multiplicity {
    Nowhere,
    Once(usize),
    Often,
}

impl MarkSets {
    /// At how many of some places, from one on and before another, a mark is open, or is not.
    pub(crate) fn tally(
        &self,
        places: &[usize],
        mark: Mark,
        wanted: bool,
        from: usize,
        to: usize,
    ) -> Multiplicity
        requires places { (o : ℕ) → o < length places.now
            → slice_index places.now o < length self.now }
        requires partners { (o : ℕ) → o < length places.now
            → partner (slice_index places.now o) < length self.now }
        requires in_order { from ≤ to }
        requires to { to ≤ length places.now }
        ensures { IsTally
            (λ o. alike wanted (has (open_at self.now (slice_index places.now o)) mark))
            from to result }
    {
        let mut tally = Multiplicity::Nowhere;
        for index in from..to {
            if self.open_at(places[index]).has(mark) == wanted {
                match tally {
                    Multiplicity::Nowhere => tally = Multiplicity::Once(index),
                    _ => return Multiplicity::Often,
                }
            }
        }
        tally
    }

    /// The first of some places, from one on and before another, that has a mark.
    pub(crate) fn first_with(
        &self,
        places: &[usize],
        mark: Mark,
        from: usize,
        to: usize,
    ) -> Option<usize>
        requires places { (o : ℕ) → o < length places.now
            → slice_index places.now o < length self.now }
        requires to { to ≤ length places.now }
        ensures { MatchOption result
            ((o : ℕ) → from ≤ o → o < to
            → has (marks_at self.now (slice_index places.now o)) mark ≡ false)
            (IsFirstBetween (λ o. has (marks_at self.now (slice_index places.now o)) mark)
            from to) }
    {
        for index in from..to {
            if self.at(places[index]).has(mark) {
                return Some(index);
            }
        }
        None
    }
}
