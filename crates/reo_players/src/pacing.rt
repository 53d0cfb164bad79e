//! Components whose rounds are counted only when they are gone to.
ghost use Rattle.std.specs.Prelude.{◌≡◌, ◌≤◌};
ghost use Rattle.reo_players.specs.Players.{after, step_of};
ghost use Rattle.reo_players.specs.Pacing.{due_of, shown};

use crate::player::Player;
use crate::step::Step;
use reo_flags::NEVER;

/// A component as it was at a round of a clock: the rounds since then, in which nothing of it
/// flowed and its bound did not run out, are not counted yet.
#[derive(Drop)]
pub struct Paced {
    pub player: Player,
    pub as_of: u64,
}

impl Paced {
    /// The round of the clock in which it is to be gone to: that in which its bound runs out.
    #[inline(always)]
    pub fn due(&self) -> u64
        ensures { result ≡ due_of self.now }
    {
        match self.player.left() {
            Some(rounds) => self.as_of.saturating_add(rounds as u64).min(NEVER - 1),
            None => NEVER,
        }
    }

    /// One round has passed at this round of the clock, in which its offer flowed, or did not. All
    /// rounds are counted, up to another round of the clock.
    #[inline(always)]
    pub fn advance(&mut self, clock: u64, next: u64, flowed: bool) -> Step
        requires { self.old.as_of ≤ clock }
        ensures player { self.new.player ≡ after flowed (shown clock self.old) }
        ensures as_of { self.new.as_of ≡ next }
        ensures step { result ≡ step_of flowed (shown clock self.old) }
    {
        self.player.catch_up(clock - self.as_of);
        self.as_of = next;
        self.player.advance(flowed)
    }
}
