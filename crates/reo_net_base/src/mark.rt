//! Marks, and the joint rule.
ghost use Rattle.std.specs.Prelude.{◌≡◌};
ghost use Rattle.reo_net_base.specs.Marks.{is_flow, marks_match};

/// What a primitive says of one of its ends in one round.
#[derive(Clone, Copy, Debug, PartialEq, Eq)]
pub enum Mark {
    /// An item flows.
    F,
    /// No flow, and this primitive gives a reason for it.
    G,
    /// No flow, and this primitive requires a reason for it.
    R,
    /// Jam: the part of the circuit around this end has no colouring of the three others.
    J,
}

impl Mark {
    /// Whether an item flows.
    pub fn is_flow(self) -> bool
        ensures { result ≡ is_flow self }
    {
        matches!(self, Mark::F)
    }
}

/// The joint rule: both ends flow, or both jam, or neither flows or jams and at least one gives a
/// reason.
pub fn marks_match(giver: Mark, taker: Mark) -> bool
    ensures { result ≡ marks_match giver taker }
{
    match giver {
        Mark::F => matches!(taker, Mark::F),
        Mark::G => matches!(taker, Mark::G | Mark::R),
        Mark::R => matches!(taker, Mark::G),
        Mark::J => matches!(taker, Mark::J),
    }
}
