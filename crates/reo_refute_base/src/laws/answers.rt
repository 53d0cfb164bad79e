//! Laws of what is answered for a log.
ghost use Rattle.reo_refute_base.specs.laws.Answers.{ItemListsAreOne, LinesAreTold, OneWrongLine, RightOrWrong};

/// The item lists of a circuit are one.
pub fn item_lists_are_one()
    ensures { ItemListsAreOne }
{}

/// A line, and what follows it, are told from the text.
pub fn lines_are_told()
    ensures { LinesAreTold }
{}

/// The text of a right log has no wrong line.
pub fn right_or_wrong()
    ensures { RightOrWrong }
{}

/// One line of a text is the first that is wrong.
pub fn one_wrong_line()
    ensures { OneWrongLine }
{}
