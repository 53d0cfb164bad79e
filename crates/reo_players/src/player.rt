//! One component in a run.
ghost use Rattle.std.specs.Prelude.{◌≡◌, ◌+◌, ◌-◌, ◌^◌, ◌==◌, min, cond, IfOk, length, drop, MatchOption, None, IsSome, is_some, false, option_and_then};
ghost use Rattle.std.specs.Option.{option_map_or};
ghost use Rattle.reo_players.specs.Counters.{rest_left, StandsUntil, task_of};
ghost use Rattle.reo_players.specs.Players.{after, step_of, beginning_of, present, is_done as is_done_of, counts, bound_of, port_of as port_of_task, first_bound, first_port};
ghost use Rattle.reo_players.specs.Idle.{is_awake as is_awake_of};
ghost use Rattle.reo_players.specs.Pacing.{later, rounds_left};

use crate::counter::{Counter, levels, pass, stand_at, standing};
use crate::latest::ports_of;
use crate::live::live_of;
use crate::step::Step;
use reo_script::{Action, Component};
use reo_values::{List, NoMemory};
use std::alloc::Global;
use std::marker::Model;

/// A component in a run: its actions, where its counters stand in them, and of its present action
/// how many rounds it has seen, how many it may see, and the port that it names. Rounds are counted
/// where it has a bound; without one, `seen` is 0 or 1.
#[derive(Drop)]
pub struct Player {
    actions: List<Action>,
    counters: Vec<Counter>,
    seen: u32,
    done: bool,
    bound: Option<u32>,
    port: Option<usize>,
}

impl Model for Player {
    ghost use Rattle.std.specs.Prelude.{List, ◌≡◌, ◌≤◌, length};
    ghost use Rattle.reo_players.specs.Players.{Player as APlayer, first_bound, first_port};
    ghost use Rattle.reo_players.specs.Codes.{player_code};
    ghost use Rattle.reo_values.specs.contracts.value.Value as item;
    ghost use Rattle.reo_players.specs.Counters.{rest_left, levels_of, AreLive, StandsUntil};

    ghost Value = { APlayer };

    ghost coded = { player_code item.the_row.coded };

    ghost view = { λ p.
        record { rest = rest_left p.done p.actions p.counters.items; seen = p.seen } };

    ghost invariant = { λ p. AreLive p.actions × (levels_of p.actions ≤ length p.counters.items)
        × StandsUntil p.done p.actions p.counters.items
        × (p.bound ≡ first_bound (rest_left p.done p.actions p.counters.items))
        × (p.port ≡ first_port (rest_left p.done p.actions p.counters.items)) };
}

impl Player {
    /// A component at its first action.
    pub fn new(alloc: Global, component: Component) -> Result<Self, NoMemory>
        ensures { IfOk result (λ player. player ≡ beginning_of component) }
    {
        let actions = live_of(alloc, component.actions)?;
        let room = levels(actions.as_slice())?;
        let mut counters = blank(alloc, room)?;
        let done = actions.is_empty();
        if !done {
            stand_at(actions.as_slice(), &mut counters, 0);
        }
        let (bound, port) = bound_and_port(actions.as_slice(), &counters, done);
        Ok(Player {
            actions,
            counters,
            seen: 0,
            done,
            bound,
            port,
        })
    }

    /// Its present action, which is no repeat; None where it is done.
    pub fn present(&self) -> Option<&Action>
        ensures { MatchOption result (present self.now ≡ None)
            (λ a. (present self.now ≡ task_of a.now) × IsSome (task_of a.now)) }
    {
        if self.done {
            None
        } else {
            Some(standing(self.actions.as_slice(), &self.counters))
        }
    }

    /// Whether it is done.
    pub fn is_done(&self) -> bool
        ensures { result ≡ is_done_of self.now }
    {
        self.done
    }

    /// The port that its present action names.
    pub fn port(&self) -> Option<usize>
        ensures { result ≡ option_and_then port_of_task (present self.now) }
    {
        self.port
    }

    /// How many rounds its present action has seen: with a bound, counted up to the greatest number
    /// of 32 bits; without one, 1 for any.
    pub fn seen(&self) -> u32
        ensures { result ≡ self.now.seen }
    {
        self.seen
    }

    /// Whether it counts: its present action is a pause or has a bound.
    pub fn counts(&self) -> bool
        ensures { result ≡ counts self.now }
    {
        self.bound.is_some()
    }

    /// Whether it is neither idle nor does it wait: no round has seen its present action. Idle is
    /// one that is done, or whose present action has no bound and a round has seen it.
    #[inline(always)]
    pub fn is_awake(&self) -> bool
        ensures { result ≡ is_awake_of self.now }
    {
        if self.done {
            return false;
        }
        match self.bound {
            None => self.seen != 1,
            Some(_) => self.seen == 0,
        }
    }

    /// In how many rounds its bound has run out, if its offer does not flow: where it has one, and
    /// a round has seen its present action.
    #[inline(always)]
    pub fn left(&self) -> Option<u32>
        ensures { result ≡ rounds_left self.now }
    {
        if self.seen == 0 {
            return None;
        }
        match self.bound {
            Some(most) => Some(most.saturating_sub(self.seen)),
            None => None,
        }
    }

    /// So many rounds have passed in which its offer did not flow, nor its bound run out.
    #[inline(always)]
    pub fn catch_up(&mut self, rounds: u64)
        ensures { self.new ≡ later rounds self.old }
    {
        if self.bound.is_some() && self.seen != 0 {
            self.seen = more_seen(self.seen, rounds);
        }
    }

    /// One more than the greatest port that its actions name, or 0 if they name none.
    pub fn ports(&self) -> usize {
        ports_of(self.actions.as_slice())
    }

    /// Lets it be as if no round had seen its present action.
    pub fn rouse(&mut self)
        ensures { self.new ≡ record self.old { seen = 0 } }
    {
        self.seen = 0;
    }

    /// One round has passed, in which its offer flowed, or did not.
    pub fn advance(&mut self, flowed: bool) -> Step
        ensures player { self.new ≡ after flowed self.old }
        ensures step { result ≡ step_of flowed self.old }
    {
        if self.done {
            return Step::Stays;
        }
        if flowed {
            self.go_on();
            return Step::Moved;
        }
        if !runs_out(self.bound, self.seen) {
            self.seen = one_more(self.bound, self.seen);
            return Step::Stays;
        }
        let port = self.port;
        self.go_on();
        match port {
            Some(port) => Step::GaveUp { port },
            None => Step::Moved,
        }
    }

    /// Goes to its next action.
    #[inline(never)]
    fn go_on(&mut self)
        ensures { self.new ≡ record { rest = drop 1 self.old.rest; seen = 0 } }
    {
        self.seen = 0;
        if !self.done {
            self.done = !pass(self.actions.as_slice(), &mut self.counters);
        }
        let (bound, port) = bound_and_port(self.actions.as_slice(), &self.counters, self.done);
        self.bound = bound;
        self.port = port;
    }
}

/// How many rounds the action may see at which counters stand, and the port that it names; neither
/// for a component that is done.
fn bound_and_port(
    actions: &[Action],
    counters: &[Counter],
    done: bool,
) -> (Option<u32>, Option<usize>)
    requires { StandsUntil done actions.now counters.now }
    ensures bound { result.0 ≡ first_bound (rest_left done actions.now counters.now) }
    ensures port { result.1 ≡ first_port (rest_left done actions.now counters.now) }
{
    if done {
        return (None, None);
    }
    let action = standing(actions, counters);
    (bound(action), port(action))
}

/// How many rounds an action may see.
fn bound(action: &Action) -> Option<u32>
    ensures { result ≡ option_and_then bound_of (task_of action.now) }
{
    match action {
        Action::Write { within, .. } => *within,
        Action::Take { within, .. } => *within,
        Action::Pause { rounds } => Some(*rounds),
        Action::Repeat { .. } => None,
    }
}

/// The port that an action names.
fn port(action: &Action) -> Option<usize>
    ensures { result ≡ option_and_then port_of_task (task_of action.now) }
{
    match action {
        Action::Write { port, .. } => Some(*port),
        Action::Take { port, .. } => Some(*port),
        Action::Pause { .. } => None,
        Action::Repeat { .. } => None,
    }
}

/// Whether a bound is used up by one round more than so many.
fn runs_out(bound: Option<u32>, seen: u32) -> bool
    ensures { result ≡ option_map_or (λ n. (seen + 1) == n) bound false }
{
    match bound {
        Some(most) => seen < most && most - seen == 1,
        None => false,
    }
}

/// How many rounds an action with this bound has seen after one more.
fn one_more(bound: Option<u32>, seen: u32) -> u32
    ensures { result ≡ cond (is_some bound) (min (seen + 1) (2 ^ 32 - 1)) 1 }
{
    if bound.is_some() {
        seen.saturating_add(1)
    } else {
        1
    }
}

/// How many rounds an action with a bound has seen after so many more.
#[inline(always)]
fn more_seen(seen: u32, rounds: u64) -> u32
    ensures { result ≡ min (seen + rounds) (2 ^ 32 - 1) }
{
    (seen as u64).saturating_add(rounds).min(u32::MAX as u64) as u32
}

/// So many counters.
fn blank(alloc: Global, count: usize) -> Result<Vec<Counter>, NoMemory>
    ensures { IfOk result (λ made. length made.items ≡ count) }
{
    let mut made = List::new(alloc);
    for _ in 0..count {
        made.push(Counter { place: 0, left: 0 })?;
    }
    Ok(made.into_vec())
}
