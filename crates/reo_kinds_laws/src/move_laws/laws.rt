//! Laws of the moves of a round.
ghost use Rattle.reo_kinds_laws.specs.move_laws.Moved.{MovesAreFlows};
ghost use Rattle.reo_kinds_laws.specs.move_laws.Offered.{MovesAreOffers};

/// A port has a move exactly where its end flows, and nothing else has one.
pub fn moves_are_flows()
    ensures { MovesAreFlows }
{}

/// What moves at a port where items go in is the item of the pending offer; where they go out, a
/// take is pending.
pub fn moves_are_offers()
    ensures { MovesAreOffers }
{}
