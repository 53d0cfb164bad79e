//! Laws of answers to circuit texts of either version.
ghost use Rattle.reo_parser.specs.two.ParsedAny.{EachTextOfAnyIsAnswered};

/// Every text has an answer: a program of one of the versions, or a refusal.
pub fn each_text_of_any_is_answered()
    ensures { EachTextOfAnyIsAnswered }
{}
