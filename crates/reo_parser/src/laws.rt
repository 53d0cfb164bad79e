//! Laws of answers to circuit texts.
ghost use Rattle.reo_parser.specs.Parsed.{EachTextIsAnswered};

/// Every text has an answer: a program or a refusal.
pub fn each_text_is_answered()
    ensures { EachTextIsAnswered }
{}
