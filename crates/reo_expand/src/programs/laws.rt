//! Laws of the expansion. Each function is empty: its contract is a law.
ghost use Rattle.reo_expand.specs.programs.Laws.{OneExpansion, ExpandedOrRefused};

/// No program stands for two, and none that stands for one is refused, but for want of memory.
pub fn one_expansion()
    ensures { OneExpansion }
{}

/// Each program stands for a program, or has one first refusal.
pub fn expanded_or_refused()
    ensures { ExpandedOrRefused }
{}
