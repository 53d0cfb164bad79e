//! Laws of expansions.
ghost use Rattle.reo_expand.specs.laws.Laws.{ExpansionsAreFew, ExpansionsAreSpelled};

/// What a program stands for is spelled where the program is: its channels, types and ports are
/// those of the program, and none of the names that are made for its nodes and connectors has the
/// byte `@`.
pub fn expansions_are_spelled()
    ensures { ExpansionsAreSpelled }
{}

/// No connector of an expansion has more items than are counted, which are at most 65,536.
pub fn expansions_are_few()
    ensures { ExpansionsAreFew }
{}
