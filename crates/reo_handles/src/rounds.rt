//! Rounds.
ghost use Rattle.reo_handles.specs.Rounds.{Rounds, refused, summary};
ghost use Rattle.std.specs.Prelude.{◌≡◌};
ghost use Rattle.reo_handles.specs.Statuses.{AtOpen};

use crate::handle::{Handle, put, taken};
use crate::session::Session;
use crate::status::CallStatus;
use reo_rounds::{Done, Exceeds};
use std::alloc::Global;

/// A budget is below this.
const BUDGETS: u64 = 1_000_000_000_000_000_000;

/// A connector makes at most so many rounds.
const MOST_ROUNDS: u64 = 9_223_372_036_854_775_808;

/// What a round was.
#[repr(C)]
#[derive(Drop)]
pub struct Round {
    /// Its number, from 1.
    pub number: u64,
    /// How many ports flowed.
    pub moves: usize,
    /// How many sides jammed.
    pub jammed: usize,
    /// Whether nothing flowed at all.
    pub idle: bool,
}

/// What is told of a round.
fn summary(number: u64, done: &Done) -> Round
    ensures { result ≡ summary number done.now }
{
    Round {
        number,
        moves: done.moves.len(),
        jammed: done.jammed,
        idle: done.idle,
    }
}

/// What a round that cannot be planned answers.
fn refused(fault: Exceeds) -> CallStatus
    ensures { result ≡ refused fault }
{
    match fault {
        Exceeds::Wide { .. } => CallStatus::Wide,
        Exceeds::Spent { .. } => CallStatus::Spent,
        Exceeds::NoMemory => CallStatus::NoMemory,
    }
}

impl Session {
    /// Makes the round that comes next.
    fn round(&mut self, alloc: Global, budget: u64, round: &mut Round) -> CallStatus
        ensures { Rounds budget round.old round.new self.old self.new result }
    {
        if BUDGETS <= budget {
            return CallStatus::LargeBudget;
        }
        if MOST_ROUNDS <= self.connector.rounds() {
            return CallStatus::NoRound;
        }
        match self.connector.round(alloc, budget) {
            Ok(done) => {
                *round = summary(self.connector.rounds(), &done);
                self.done = Some(done);
                CallStatus::Done
            }
            Err(fault) => refused(fault),
        }
    }
}

/// Makes the round that comes next, that of the first colouring, and tells what it was. `Wide`,
/// `Spent`: a part of the circuit is over the budget; `LargeBudget`: the budget is 10^18 or more;
/// `NoRound`: 2^63 rounds were made. Nothing changes then.
pub fn round_open(alloc: Global, handle: &mut Handle, budget: u64, round: &mut Round) -> CallStatus
    ensures { AtOpen (Rounds budget round.old round.new)
        handle.old.place.session handle.new.place.session result }
{
    let Some(mut session) = taken(alloc, handle) else {
        return CallStatus::Closed;
    };
    let status = session.round(alloc, budget, round);
    put(handle, session);
    status
}
