//! Sets of marks.
ghost use Rattle.std.specs.Prelude.{◌≡◌, ◌||◌, false};
ghost use Rattle.reo_net_base.specs.declared.mark.Mark.{Mark as Said};
ghost use Rattle.reo_net_laws.specs.Ends.{same_mark};
ghost use Rattle.reo_side_tables.specs.Sets.{marks_has, marks_byte};

use reo_net_base::Mark;

/// A set of marks.
#[derive(Clone, Copy, Debug, PartialEq, Eq)]
pub struct Marks {
    pub flow: bool,
    pub given: bool,
    pub required: bool,
    pub jam: bool,
}

impl Marks {
    /// No marks.
    pub fn none() -> Marks
        ensures { (m : Said) → marks_has result m ≡ false }
    {
        Marks {
            flow: false,
            given: false,
            required: false,
            jam: false,
        }
    }

    /// Whether the set has a mark.
    pub fn has(self, mark: Mark) -> bool
        ensures { result ≡ marks_has self mark }
    {
        match mark {
            Mark::F => self.flow,
            Mark::G => self.given,
            Mark::R => self.required,
            Mark::J => self.jam,
        }
    }

    /// The set with one mark more.
    pub fn with(self, mark: Mark) -> Marks
        ensures { (m : Said) → marks_has result m ≡ (same_mark mark m || marks_has self m) }
    {
        let mut marks = self;
        match mark {
            Mark::F => marks.flow = true,
            Mark::G => marks.given = true,
            Mark::R => marks.required = true,
            Mark::J => marks.jam = true,
        }
        marks
    }

    /// The bytes of its marks together.
    pub fn byte(self) -> u8
        ensures { result ≡ marks_byte self }
    {
        let mut byte = 0;
        if self.flow {
            byte += 1;
        }
        if self.given {
            byte += 2;
        }
        if self.required {
            byte += 4;
        }
        if self.jam {
            byte += 8;
        }
        byte
    }
}

/// The marks at one end of a joint: there a reason is given where the other end requires one, or
/// neither does.
pub fn marks_of(flow: bool, other: bool, neither: bool, required: bool, jam: bool) -> Marks
    ensures { result ≡ record {
      flow = flow;
      given = other || neither;
      required = required;
      jam = jam;
    } }
{
    Marks {
        flow,
        given: other || neither,
        required,
        jam,
    }
}
