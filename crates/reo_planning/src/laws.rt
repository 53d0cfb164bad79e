//! What stays of knots and of what is kept of them, and what is left to search.
ghost use Rattle.reo_planning.specs.Planned.{LeftWeighsNoMore};
ghost use Rattle.reo_planning.specs.Unsettling.{KeptElsewhere, KeptLater, KnotsStay};

/// What is kept stays right where a circuit changes at no primitive of a part that is still
/// settled.
pub fn kept_elsewhere()
    ensures { KeptElsewhere }
{}

/// What is kept stays right in each round where no part that is still settled moves.
pub fn kept_later()
    ensures { KeptLater }
{}

/// The knots of a circuit are those of each circuit of the same shape.
pub fn knots_stay()
    ensures { KnotsStay }
{}

/// The parts of which no rows are kept weigh together no more than all parts.
pub fn left_weighs_no_more()
    ensures { LeftWeighsNoMore }
{}
