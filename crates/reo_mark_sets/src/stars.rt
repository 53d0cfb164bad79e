//! Mergers and replicators.
ghost use Rattle.std.specs.Prelude.{◌≡◌, ◌||◌, ◌<◌, ◌≤◌, ◌↔◌, ℕ, IsTrue, true, false, length, slice_index};
ghost use Rattle.reo_mark_sets.specs.PlainMarks.{has, open_at};
ghost use Rattle.reo_mark_sets.specs.Standing.{ArePlaces};
ghost use Rattle.reo_mark_sets.specs.Stars.{apart_mark, center_apart, other_mark, center_other, center_left, spoke_left, may_some, IsStar, Kind, KindWorks, AreAparts, IsStarNarrowed};
ghost use Rattle.reo_mark_sets.specs.Stars.Kind.{rest, other};

use crate::marks::PlainMarks;
use crate::sets::MarkSets;
use crate::tallies::Multiplicity;
use reo_net_base::Mark;

/// A side one of whose ends is the center of all others: the output of a merger, or the input of a
/// replicator.
#[derive(Clone, Copy)]
pub(crate) enum Star {
    Merger,
    Replicator,
}

impl Star {
    /// The mark of an end that is apart.
    fn apart_mark(self) -> Mark
        ensures { result ≡ apart_mark self }
    {
        match self {
            Star::Merger => Mark::F,
            Star::Replicator => Mark::R,
        }
    }

    /// That of the center then.
    fn center_apart(self) -> Mark
        ensures { result ≡ center_apart self }
    {
        match self {
            Star::Merger => Mark::F,
            Star::Replicator => Mark::G,
        }
    }

    /// The mark of all ends by the row by which none of them gives a reason.
    fn other_mark(self) -> Mark
        ensures { result ≡ other_mark self }
    {
        match self {
            Star::Merger => Mark::R,
            Star::Replicator => Mark::F,
        }
    }

    /// That of the center then.
    fn center_other(self) -> Mark
        ensures { result ≡ center_other self }
    {
        match self {
            Star::Merger => Mark::G,
            Star::Replicator => Mark::F,
        }
    }

    /// What is left at the center.
    fn center_left(self, aparts: Multiplicity, rests: bool, others: bool) -> PlainMarks
        ensures { result ≡ center_left self aparts rests others }
    {
        let some = !matches!(aparts, Multiplicity::Nowhere);
        match self {
            Star::Merger => PlainMarks {
                flow: some,
                given: others,
                required: rests,
            },
            Star::Replicator => PlainMarks {
                flow: others,
                given: some,
                required: rests,
            },
        }
    }

    /// What is left at another end.
    fn spoke_left(
        self,
        aparts: Multiplicity,
        rests: bool,
        others: bool,
        marks: PlainMarks,
        end: usize,
    ) -> PlainMarks
        ensures { result ≡ spoke_left self aparts rests others marks end }
    {
        let (here, another) = match aparts {
            Multiplicity::Nowhere => (false, false),
            Multiplicity::Once(only) => (only == end, only != end),
            Multiplicity::Often => (true, true),
        };
        let given = rests || another;
        match self {
            Star::Merger => PlainMarks {
                flow: here && marks.flow,
                given,
                required: others,
            },
            Star::Replicator => PlainMarks {
                flow: others,
                given,
                required: here && marks.required,
            },
        }
    }
}

/// Whether some row works.
fn some_left(aparts: Multiplicity, rests: bool, others: bool) -> bool
    ensures { result ≡ (rests || (others || may_some aparts)) }
{
    rests || others || !matches!(aparts, Multiplicity::Nowhere)
}

impl MarkSets {
    /// Whether all ends but the center can have a mark.
    fn all_open(&self, places: &[usize], mark: Mark, from: usize, to: usize) -> bool
        requires places { ArePlaces (length self.now) places.now }
        requires in_order { from ≤ to }
        requires to { to ≤ length places.now }
        ensures { IsTrue result ↔ ((o : ℕ) → from ≤ o → o < to
            → has (open_at self.now (slice_index places.now o)) mark ≡ true) }
    {
        matches!(
            self.tally(places, mark, false, from, to),
            Multiplicity::Nowhere
        )
    }

    /// The ends that may be apart, where all ends give reasons but those of a tally.
    fn aparts(
        &self,
        star: Star,
        places: &[usize],
        center: usize,
        from: usize,
        to: usize,
    ) -> Multiplicity
        requires places { ArePlaces (length self.now) places.now }
        requires star { IsStar (length places.now) center from to }
        ensures { AreAparts star center from to places.now self.now result }
    {
        if !self.open_at(places[center]).has(star.center_apart()) {
            return Multiplicity::Nowhere;
        }
        match self.tally(places, Mark::G, false, from, to) {
            Multiplicity::Nowhere => self.tally(places, star.apart_mark(), true, from, to),
            Multiplicity::Once(only) => if self.open_at(places[only]).has(star.apart_mark()) {
                Multiplicity::Once(only)
            } else {
                Multiplicity::Nowhere
            },
            Multiplicity::Often => Multiplicity::Nowhere,
        }
    }

    /// Whether the row works by which all ends but the center give reasons.
    fn rest_works(
        &self,
        star: Star,
        places: &[usize],
        center: usize,
        from: usize,
        to: usize,
    ) -> bool
        requires places { ArePlaces (length self.now) places.now }
        requires star { IsStar (length places.now) center from to }
        ensures { IsTrue result ↔ KindWorks star center from to places.now self.now rest }
    {
        let _ = star;
        self.open_at(places[center]).required && self.all_open(places, Mark::G, from, to)
    }

    /// Whether the row works by which none but the center may give a reason.
    fn other_works(
        &self,
        star: Star,
        places: &[usize],
        center: usize,
        from: usize,
        to: usize,
    ) -> bool
        requires places { ArePlaces (length self.now) places.now }
        requires star { IsStar (length places.now) center from to }
        ensures { IsTrue result ↔ KindWorks star center from to places.now self.now other }
    {
        self.open_at(places[center]).has(star.center_other())
            && self.all_open(places, star.other_mark(), from, to)
    }

    /// Leaves at the ends of a merger or a replicator just the marks that some row has which works.
    /// The answer is whether some row works.
    pub(crate) fn narrow_star(
        &mut self,
        star: Star,
        places: &[usize],
        center: usize,
        from: usize,
        to: usize,
    ) -> bool
        requires places { ArePlaces (length self.old) places.now }
        requires star { IsStar (length places.now) center from to }
        ensures narrowed { IsStarNarrowed star center from to places.now self.old self.new }
        ensures some { IsTrue result
            ↔ ((kind : Kind) × KindWorks star center from to places.now self.old kind) }
    {
        let aparts = self.aparts(star, places, center, from, to);
        let rests = self.rest_works(star, places, center, from, to);
        let others = self.other_works(star, places, center, from, to);
        for end in from..to {
            let open = self.open_at(places[end]);
            let left = star.spoke_left(aparts, rests, others, open, end);
            self.leave(places[end], open, left);
        }
        self.put(places[center], star.center_left(aparts, rests, others));
        some_left(aparts, rests, others)
    }
}
