//! Laws of what is remembered.
ghost use Rattle.reo_part_plans.specs.Alike.{AlikeSameRows};
ghost use Rattle.reo_part_plans.specs.Laws.{PlansStay};

/// What is remembered of the parts of a circuit is right for each circuit of the same shape that
/// treats items alike, whatever its state.
pub fn plans_stay()
    ensures { PlansStay }
{}

/// Rows that are first on a closed set of sides are first there in each circuit that is alike on
/// the set, in each round in which the classes are the same.
pub fn alike_same_rows()
    ensures { AlikeSameRows }
{}
