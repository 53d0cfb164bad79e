//! Laws of answers to circuit texts of either version.
ghost use Rattle.std.specs.Prelude.{ℕ, List, Result};
ghost use Rattle.reo_trees.specs.declared.programs.Program.{Program};
ghost use Rattle.reo_parser.specs.declared.fault.ParseFault.{ParseFault};
ghost use Rattle.reo_parser.specs.Parsed.{Answers};
ghost use Rattle.reo_parser.specs.two.ParsedAny.{AnswersAny};
ghost use Rattle.reo_parser.specs.two_laws.Versions.{IsFirst, SecondTextsAreRefused, as_any};

/// The reader of version 1 refuses a text of version 2 on the line of its first token, the name
/// `reo`: no text of version 1 goes on with it.
pub fn second_texts_are_refused()
    ensures { SecondTextsAreRefused }
{}

/// A text of version 1, or one that has no tokens, is answered as the reader of version 1 answers
/// it: it means what it meant.
pub fn first_texts_mean_what_they_meant()
    ensures { (text : List ℕ) (answer : Result Program ParseFault) → IsFirst text
        → Answers text answer → AnswersAny text (as_any answer) }
{}
