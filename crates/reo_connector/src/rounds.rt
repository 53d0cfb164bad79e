//! Rounds of a connector.
ghost use Rattle.std.specs.Prelude.{◌≡◌, ◌<◌, ◌^◌, MatchResult, OnErr};
ghost use Rattle.reo_connector.specs.Held.{net_in};
ghost use Rattle.reo_connector.specs.Rounds.{IsMade};
ghost use Rattle.reo_rounds.specs.Plans.{IsPlanFault};

use crate::connector::Connector;
use reo_rounds::{Done, Exceeds, jammed_sides};
use reo_steps::Steps;
use reo_trace::RoundLine;
use std::alloc::Global;
use std::marker::Brand;
use std::sync::ledger::{Blank, Ledger};

impl Connector {
    /// Makes the round that comes next, its steps counted in a book.
    fn round_counted<L: Ledger>(
        &mut self,
        alloc: Global,
        budget: u64,
        blank: Blank,
    ) -> Result<Done, Exceeds>
        requires name { blank.name ≡ L.name }
        requires parts { blank.parts ≡ L.parts }
        requires some_part { 0 < L.parts }
        requires small { budget < 10 ^ 18 }
        requires few { self.old.rounds < 2 ^ 63 }
        ensures exact { MatchResult result (IsMade budget self.old self.new)
            (IsPlanFault budget (net_in self.old)) }
        ensures refused { OnErr result (self.new ≡ self.old) }
    {
        let mut steps = Steps::<L>::new(blank);
        self.engine.known();
        let made = self
            .engine
            .make_round(alloc, &self.ports, budget, &mut steps)?;
        let (round, text) = made;
        self.engine.hand_back(text);
        let jammed = jammed_sides(self.engine.circuit(), round.colouring.rows.as_slice());
        let RoundLine { idle, moves, .. } = self.engine.finish_round(round);
        Ok(Done {
            moves,
            idle,
            jammed,
        })
    }

    /// Makes the round that comes next: that of the first colouring. It answers the ports that
    /// flowed, in order, with their items, whether nothing flowed at all, and how many sides
    /// jammed. The offers of the ports that flowed are gone; the others are pending still.
    ///
    /// The budget bounds the weight of a part and not the work: the greatest, 10^18 - 1, serves,
    /// unless heavier parts are to be refused.
    ///
    /// # Errors
    ///
    /// `Wide` and `Spent`: exactly where a part of the circuit is over the budget, for the least
    /// such part. `NoMemory` is out of memory. Nothing changes, and the call may be made again.
    pub fn round(&mut self, alloc: Global, budget: u64) -> Result<Done, Exceeds>
        requires small { budget < 10 ^ 18 }
        requires few { self.old.rounds < 2 ^ 63 }
        ensures exact { MatchResult result (IsMade budget self.old self.new)
            (IsPlanFault budget (net_in self.old)) }
        ensures refused { OnErr result (self.new ≡ self.old) }
    {
        let blank = Blank::new(1);
        self.round_counted::<Brand>(alloc, budget, blank)
    }
}
