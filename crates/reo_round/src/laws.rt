//! Laws of what feeds joints. Each function is empty: its contract is a law.
ghost use Rattle.reo_round.specs.FeedLaws.{FeedsAreOne, FeedsStay};

/// What feeds the joints of a circuit feeds those of each circuit of the same shape.
pub fn feeds_stay()
    ensures { FeedsStay }
{}

/// A circuit has one list of what feeds its joints.
pub fn feeds_are_one()
    ensures { FeedsAreOne }
{}
