//! Laws of what circuit texts say.
ghost use Rattle.std.specs.Prelude.{ℕ, List, length};
ghost use Rattle.reo_trees.specs.declared.programs.Program.{Program};
ghost use Rattle.reo_trees.specs.Says.{SaysProgram};
ghost use Rattle.reo_syntax_laws.specs.trees_laws.Spelled.{IsSpelled, IsWritten};
ghost use Rattle.reo_syntax_laws.specs.trees_laws.Few.{HasItemsWithin};

/// In the program that a text says each name is a name and no reserved word, each text is
/// printable, and each number lies within the bounds of its place.
pub fn programs_are_written()
    ensures { (text : List ℕ) (p : Program) → SaysProgram text p → IsWritten p }
{}

/// So it is spelled as an expansion is: of the names of its nodes and connectors that says no
/// more than that they have no `@`.
pub fn programs_are_spelled()
    ensures { (text : List ℕ) (p : Program) → SaysProgram text p → IsSpelled p }
{}

/// No connector of the program that a text says has more items than the text has bytes.
pub fn items_are_few()
    ensures { (text : List ℕ) (p : Program) → SaysProgram text p → HasItemsWithin (length text) p }
{}
