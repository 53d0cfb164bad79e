//! Laws of bounds, pauses and repeats.
ghost use Rattle.reo_players.specs.player_laws.Waiting.{BoundsAreExact, WithoutBoundItWaits};
ghost use Rattle.reo_players.specs.player_laws.Moving.{FlowMovesOn, DoneStaysDone};
ghost use Rattle.reo_players.specs.player_laws.Repeats.{RepeatsAreWrittenOut};

/// An action with a bound of n whose offer never flows is the present action for exactly n rounds,
/// and in the last of them it is given up; a pause of n lasts exactly n.
pub fn bounds_are_exact()
    ensures { BoundsAreExact }
{}

/// An action without a bound stays the present action for as long as its offer does not flow.
pub fn without_bound_it_waits()
    ensures { WithoutBoundItWaits }
{}

/// Once the offer of an action flows, the next one is present, and has seen no round.
pub fn flow_moves_on()
    ensures { FlowMovesOn }
{}

/// A component that is done stays done.
pub fn done_stays_done()
    ensures { DoneStaysDone }
{}

/// A repeat comes to its body so many times over, and to nothing else.
pub fn repeats_are_written_out()
    ensures { RepeatsAreWrittenOut }
{}
