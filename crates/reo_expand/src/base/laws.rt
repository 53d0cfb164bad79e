//! Laws of the expansion. Each function is empty: its contract is a law.
ghost use Rattle.reo_expand.specs.base.Lifting.{LiftedStandsForItself, LiftedIsWalked};

/// What a program becomes as one of the second version stands for that program.
pub fn lifted_stands_for_itself()
    ensures { LiftedStandsForItself }
{}

/// It is refused only where it has more than 65,536 items.
pub fn lifted_is_walked()
    ensures { LiftedIsWalked }
{}
