//! Lines that a text has, known to proofs alone: no memory is taken for them, and these functions
//! do nothing when they run.
ghost use Rattle.std.specs.Prelude.{◌≡◌, ◌++◌, [], ◌∷◌, List, drop};
ghost use Rattle.std.specs.Borrow.{ftrue};
ghost use Rattle.std.specs.Coded.{coded_list};
ghost use Rattle.reo_trace.specs.declared.line.RoundLine.{RoundLine as ALine};
ghost use Rattle.reo_trace.specs.contracts.line.RoundLine.{the_row as line_row};

use reo_trace::{Ending, RoundLine};
use std::marker::Model;

/// Round lines, one after another.
#[derive(Drop)]
pub(crate) struct GivenLines {
    ghost lines: { List ALine } by { coded_list line_row.coded },
}

impl Model for GivenLines {
    ghost also_owns = { λ _. ftrue };
}

impl GivenLines {
    ghost use Rattle.reo_trace_reader.specs.Given.{lines_given};

    /// No line yet.
    pub(crate) fn new() -> GivenLines
        ensures { lines_given result ≡ [] }
    {
        GivenLines::told(&())
    }

    /// These lines, and then one more.
    #[inline(always)]
    pub(crate) fn then(&self, line: &RoundLine) -> GivenLines
        ensures { lines_given result ≡ lines_given self.now ++ line.now ∷ [] }
    {
        GivenLines::told(&(self, line))
    }

    /// The same lines.
    #[inline(always)]
    pub(crate) fn all(&self) -> GivenLines
        ensures { lines_given result ≡ lines_given self.now }
    {
        GivenLines::told(self)
    }

    /// All of these lines but the first.
    #[inline(always)]
    pub(crate) fn rest(&self) -> GivenLines
        ensures { lines_given result ≡ drop 1 (lines_given self.now) }
    {
        GivenLines::told(self)
    }

    /// The lines that the caller's proof tells, out of what is shown or out of nothing.
    #[inline(always)]
    fn told<T>(_shown: &T) -> GivenLines
        ghost lines: { List ALine }
        ensures { lines_given result ≡ lines }
    {
        GivenLines {}
    }
}

/// A trace, of which the ending alone is held.
#[derive(Drop)]
pub(crate) struct GivenTrace {
    pub(crate) lines: GivenLines,
    pub(crate) ending: Ending,
}
