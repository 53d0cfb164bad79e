//! Laws of what is owed for open branches.
ghost use Rattle.reo_refute_base.specs.measure.Owed.{DropsLessen, SplitsLessen};

/// When a live value goes, less is owed for its branch.
pub fn drops_lessen()
    ensures { DropsLessen }
{}

/// For all branches of a split of a joint at which two values or more are live, and at most 260,
/// less is owed than for the branch that was split.
pub fn splits_lessen()
    ensures { SplitsLessen }
{}
