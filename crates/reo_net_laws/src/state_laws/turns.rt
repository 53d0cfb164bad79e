//! Classes in other rounds.
ghost use Rattle.reo_net_laws.specs.state_laws.Turns.{MoreFlowIsNoLater, OneClassStaysOne};

/// In each round a row by which everything flows that flows by another has no greater class.
pub fn more_flow_is_no_later()
    ensures { MoreFlowIsNoLater }
{}

/// Rows of one class in a round are of one class in every round.
pub fn one_class_stays_one()
    ensures { OneClassStaysOne }
{}
