//! Laws of what texts of version 2 say.
ghost use Rattle.std.specs.Prelude.{ℕ, List};
ghost use Rattle.reo_trees.specs.declared.programs_two.ProgramTwo.{ProgramTwo};
ghost use Rattle.reo_trees.specs.SaysTwo.{SaysTwo};
ghost use Rattle.reo_syntax_laws.specs.trees_laws.SpelledTwo.{IsSpelledTwo};

use reo_trees::loops_by_trees;

/// In the program of version 2 that a text says each name is a name and no reserved word, each
/// text is printable, each number lies within the bounds of its place, each index has one to eight
/// units, and at most eight loops stand in one another, without a node in them.
pub fn programs_two_are_spelled()
    ensures { (text : List ℕ) (p : ProgramTwo) → SaysTwo text p → IsSpelledTwo p }
{
    loops_by_trees();
}
