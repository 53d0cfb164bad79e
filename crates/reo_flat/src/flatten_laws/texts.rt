//! Programs as texts say them.
ghost use Rattle.reo_flat.specs.flatten_laws.FromTexts.{NamesArePlain};

use reo_syntax_laws::{items_are_few, programs_are_spelled};

/// No name of the program that a text says has the byte `@`, so that paths are told from names.
pub fn names_are_plain()
    ensures { NamesArePlain }
{
    programs_are_spelled();
    items_are_few();
}
