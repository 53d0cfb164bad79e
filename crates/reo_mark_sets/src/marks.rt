//! Sets of marks.
ghost use Rattle.std.specs.Prelude.{◌≡◌, ◌||◌, true};
ghost use Rattle.reo_net_base.specs.declared.mark.Mark.{Mark as EndMark};
ghost use Rattle.reo_mark_sets.specs.PlainMarks.{has, met, only, just, both, no_marks, all_marks};

use reo_net_base::Mark;

/// The marks that an end may still have, jam left out.
#[derive(Clone, Copy, Debug, PartialEq, Eq)]
pub struct PlainMarks {
    pub flow: bool,
    pub given: bool,
    pub required: bool,
}

impl PlainMarks {
    /// None.
    pub fn none() -> PlainMarks
        ensures { result ≡ no_marks }
    {
        PlainMarks {
            flow: false,
            given: false,
            required: false,
        }
    }

    /// All.
    pub fn all() -> PlainMarks
        ensures { result ≡ all_marks }
    {
        PlainMarks {
            flow: true,
            given: true,
            required: true,
        }
    }

    /// Whether a mark is one of these.
    pub fn has(self, mark: Mark) -> bool
        ensures { result ≡ has self mark }
    {
        match mark {
            Mark::F => self.flow,
            Mark::G => self.given,
            Mark::R => self.required,
            Mark::J => false,
        }
    }

    /// Whether there is one.
    pub fn is_some(self) -> bool
        ensures { result ≡ (self.flow || (self.given || self.required)) }
    {
        self.flow | (self.given | self.required)
    }

    /// Whether there is one at most.
    pub fn is_sole(self) -> bool
        ensures { result ≡ true → (mark : EndMark) → has self mark ≡ true → self ≡ just mark }
    {
        let two = (self.flow | self.given) & self.required;
        !((self.flow & self.given) | two)
    }

    /// Whether one of these meets none of some marks at a joint.
    pub(crate) fn lose(self, theirs: PlainMarks) -> bool {
        let flow = self.flow & !theirs.flow;
        let given = self.given & !(theirs.given | theirs.required);
        flow | given | (self.required & !theirs.given)
    }

    /// Those of these marks that meet one of some marks at a joint.
    pub fn met(self, theirs: PlainMarks) -> PlainMarks
        ensures { result ≡ met self theirs }
    {
        PlainMarks {
            flow: self.flow & theirs.flow,
            given: self.given & (theirs.given | theirs.required),
            required: self.required & theirs.given,
        }
    }

    /// One mark alone.
    pub fn just(mark: Mark) -> PlainMarks
        ensures { result ≡ just mark }
    {
        PlainMarks {
            flow: matches!(mark, Mark::F),
            given: matches!(mark, Mark::G),
            required: matches!(mark, Mark::R),
        }
    }

    /// The marks that are of both.
    pub fn both(self, other: PlainMarks) -> PlainMarks
        ensures { result ≡ both self other }
    {
        PlainMarks {
            flow: self.flow & other.flow,
            given: self.given & other.given,
            required: self.required & other.required,
        }
    }

    /// That mark alone, if it is one of these.
    pub fn only(self, mark: Mark) -> PlainMarks
        ensures { result ≡ only self mark }
    {
        PlainMarks {
            flow: self.flow & matches!(mark, Mark::F),
            given: self.given & matches!(mark, Mark::G),
            required: self.required & matches!(mark, Mark::R),
        }
    }
}
