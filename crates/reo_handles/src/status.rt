//! What calls answer.
ghost use Rattle.std.specs.Prelude.{◌≡◌};
ghost use Rattle.reo_handles.specs.Statuses.{number_of};

/// What a call answers: that it was done, or why not.
#[derive(Clone, Copy, Debug, PartialEq, Eq)]
pub enum CallStatus {
    /// It was done.
    Done,
    /// Nothing is open in the handle.
    Closed,
    /// The text says no circuit that is accepted.
    Refused,
    /// The text has more bytes than a circuit may.
    TooLong,
    /// No port has this name or this number.
    NoPort,
    /// A write at an `out` port, or a take at an `in` port.
    WrongWay,
    /// An offer is pending at the port.
    Pending,
    /// No item of the port's type has this text, or there is no such port.
    NoItem,
    /// Nothing is pending at the port, or there is no such port.
    NotPending,
    /// At a joint of a part of the circuit more than 256 items can stand.
    Wide,
    /// A part of the circuit weighs more than the budget.
    Spent,
    /// The budget is none: it is not below 10^18.
    LargeBudget,
    /// The connector has made 2^63 rounds.
    NoRound,
    /// There is no such move.
    NoMove,
    /// Out of memory.
    NoMemory,
}

impl CallStatus {
    /// Its number.
    pub fn number(self) -> u32
        ensures { result ≡ number_of self }
    {
        match self {
            CallStatus::Done => 0,
            CallStatus::Closed => 1,
            CallStatus::Refused => 2,
            CallStatus::TooLong => 3,
            CallStatus::NoPort => 4,
            CallStatus::WrongWay => 5,
            CallStatus::Pending => 6,
            CallStatus::NoItem => 8,
            CallStatus::NotPending => 9,
            CallStatus::Wide => 10,
            CallStatus::Spent => 11,
            CallStatus::LargeBudget => 12,
            CallStatus::NoRound => 13,
            CallStatus::NoMove => 14,
            CallStatus::NoMemory => 15,
        }
    }
}
