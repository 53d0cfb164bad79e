//! Laws of canonical texts of either version.
ghost use Rattle.std.specs.Prelude.{◌≡◌, ◌++◌, ℕ, List, codes};
ghost use Rattle.reo_trees.specs.declared.programs.Program.{Program};
ghost use Rattle.reo_trees.specs.declared.programs_two.AnyProgram.{AnyProgram};
ghost use Rattle.reo_trees.specs.Says.{SaysProgram};
ghost use Rattle.reo_trees.specs.SaysTwo.{SaysAny};
ghost use Rattle.reo_syntax.specs.Canonical.{canonical_text};
ghost use Rattle.reo_syntax.specs.Written.{IsWritten};
ghost use Rattle.reo_syntax_laws.specs.trees_laws.SpelledTwo.{IsSpelledTwo};
ghost use Rattle.reo_syntax.specs.two.Canonical.{canonical_text_two};
ghost use Rattle.reo_syntax_laws.specs.syntax_two_laws.Written.{SaysSameTwo};
ghost use Rattle.reo_expand.specs.base.Lifted.{lifted};
ghost use Rattle.reo_upgrade.specs.Upgraded.{upgraded, canonical_text_any, SameAny, SaysSameAny};

/// The canonical text of a lifted program is the line `reo 2` and the canonical text of the
/// program. It says the lifted program, lines aside, where some text says the program, lines aside.
pub fn lifted_text_says_the_lifted()
    ensures text { (p : Program)
        → canonical_text_two (lifted p) ≡ codes "reo 2\n" ++ canonical_text p }
    ensures says { (p : Program) → IsWritten p
        → SaysSameTwo (canonical_text_two (lifted p)) (lifted p) }
{}

/// The canonical text of a program that a text of either version says, says the same program,
/// lines aside, and no other: whoever reads it back has the same program, lines aside, and writes
/// the same text. The canonical text of version 2 says the program as one of version 2, lines
/// aside.
pub fn canonical_texts_of_any()
    ensures says { (text : List ℕ) (p : AnyProgram) → SaysAny text p
        → SaysSameAny (canonical_text_any p) p }
    ensures back { (text : List ℕ) (p q : AnyProgram) → SaysAny text p
        → SaysAny (canonical_text_any p) q → SameAny p q }
    ensures again { (text : List ℕ) (p q : AnyProgram) → SaysAny text p
        → SaysAny (canonical_text_any p) q → canonical_text_any q ≡ canonical_text_any p }
    ensures upgrades { (text : List ℕ) (p : AnyProgram) → SaysAny text p
        → SaysSameTwo (canonical_text_two (upgraded p)) (upgraded p) }
{}

/// What a program that a text of version 1 says becomes as one of version 2 is spelled as a text of
/// version 2 can have it.
pub fn lifted_programs_are_spelled()
    ensures { (text : List ℕ) (p : Program) → SaysProgram text p → IsSpelledTwo (lifted p) }
{}
