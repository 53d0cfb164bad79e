//! Laws of canonical texts of version 2.
ghost use Rattle.std.specs.Prelude.{◌≡◌, ℕ, List};
ghost use Rattle.reo_trees.specs.declared.programs_two.ProgramTwo.{ProgramTwo};
ghost use Rattle.reo_syntax.specs.Written.{HasNoMoreGroupings};
ghost use Rattle.reo_syntax.specs.two.Canonical.{canonical_text_two};
ghost use Rattle.reo_syntax_laws.specs.syntax_two_laws.Unlined.{SameTwo};
ghost use Rattle.reo_syntax_laws.specs.syntax_two_laws.Written.{SaysSameTwo, IsWrittenTwo};

/// The canonical text of a program of version 2 that some text says, lines aside, says the same
/// program, lines aside, within the limits of levels and of loops too, and no text that says it has
/// fewer groupings. Lines are no part of canonical texts.
pub fn canonical_text_two_says_the_program()
    ensures says { (p : ProgramTwo) → IsWrittenTwo p → SaysSameTwo (canonical_text_two p) p }
    ensures fewest { (p : ProgramTwo) (text : List ℕ) → SaysSameTwo text p
        → HasNoMoreGroupings (canonical_text_two p) text }
    ensures lines { (p q : ProgramTwo) → SameTwo p q
        → canonical_text_two p ≡ canonical_text_two q }
{}
