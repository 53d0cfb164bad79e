//! Laws of loops that stand in one another.
ghost use Rattle.reo_trees.specs.loops.Laws.{LoopsByLastTokens, LoopsByTrees};

/// Tokens end with a loop in so many others exactly where a loop begins with the last of them and
/// so many `{` are open.
pub fn loops_by_last_tokens()
    ensures { LoopsByLastTokens }
{}

/// Tokens that say a program have no loop within eight others exactly where the program has at
/// most eight loops in one another.
pub fn loops_by_trees()
    ensures { LoopsByTrees }
{}
