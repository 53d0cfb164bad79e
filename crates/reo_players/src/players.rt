//! All components in a run.
ghost use Rattle.std.specs.Prelude.{◌≡◌, ◌≢◌, ℕ, ◌<◌, ◌≤◌, ◌+◌, ◌-◌, ◌^◌, ◌==◌, ◌||◌, false, true, IfOk, IfSome, length, map, option_and_then, set, slice_index_or};
ghost use Rattle.std.specs.Option.{option_map_or};
ghost use Rattle.reo_players.specs.Players.{beginning_of, present, player_of, port_of as port_of_task, all_done, counts, someone_counts, IsAdvanced};
ghost use Rattle.reo_players.specs.Idle.{HasRoused, HavePassed, IsNamer, IsNextAwake, IsRoused, NamesPort, is_awake, is_last};
ghost use Rattle.reo_players.specs.Pacing.{clock_at, due_of, paced_of};
ghost use Rattle.reo_players.specs.Wants.{Wants};

use crate::latest::{latest_of, note_step};
use crate::marks::{Pace, Paces, marks_of};
use crate::pacing::Paced;
use crate::player::Player;
use crate::step::Step;
use reo_flags::{Dues, NEVER};
use reo_script::{Action, Component, Script};
use reo_values::{List, NoMemory, Value};
use std::alloc::Global;
use std::marker::Model;

/// What a component wants in a round.
pub enum Want<'a> {
    /// To write an item at a port.
    Write { port: usize, item: &'a Value },
    /// To take an item at a port.
    Take { port: usize },
    /// To let rounds pass.
    Rest,
    /// Nothing more: it is done.
    Done,
}

/// All components in a run, in the order of their script. Their marks are kept, so that those to
/// which nothing is to be done are passed over; and of each port the component that came there
/// last, which is looked at first. Rounds of a bound or a pause are not counted one by one: each
/// component has the round of a clock in which it is due, and in a round a component that is not
/// due is passed over. The components before `passed` have had the clock's present round.
#[derive(Drop)]
pub struct Players {
    players: List<Paced>,
    marks: Paces,
    latest: List<usize>,
    dues: Dues,
    clock: u64,
    passed: usize,
}

impl Model for Players {
    ghost use Rattle.std.specs.Prelude.{List, ◌≡◌};
    ghost use Rattle.std.specs.Coded.{coded_list};
    ghost use Rattle.reo_values.specs.contracts.value.Value as item;
    ghost use Rattle.reo_players.specs.Codes.{player_code};
    ghost use Rattle.reo_players.specs.Players.{Player as APlayer};
    ghost use Rattle.reo_players.specs.Pacing.{ArePaced, clock_at, each_shown};

    ghost Value = { List APlayer };

    ghost coded = { coded_list (player_code item.the_row.coded) };

    ghost view = { λ ps. each_shown (clock_at ps.clock ps.passed) ps.players };

    ghost invariant = { λ ps. ArePaced ps.clock ps.passed ps.players ps.marks ps.dues };
}

/// Each component at its first action, at the beginning of the clock. `NoMemory` is out of memory.
fn first_paced(alloc: Global, components: List<Component>) -> Result<List<Paced>, NoMemory>
    ensures { IfOk result (λ made. made ≡ map paced_of components) }
{
    let mut players = List::new(alloc);
    for component in components.into_vec() {
        let player = Player::new(alloc, component)?;
        players.push(Paced { player, as_of: 0 })?;
    }
    Ok(players)
}

/// The clock of a component: in a round, that of those that it has passed is one ahead.
#[inline(always)]
fn clock_of(clock: u64, passed: usize, component: usize) -> u64
    requires { clock < 2 ^ 64 - 1 }
    ensures { result ≡ clock_at clock passed component }
{
    if component < passed { clock + 1 } else { clock }
}

/// Passes a component, if it is the next to be passed. The answer is its clock then.
#[inline(always)]
fn pass_one(clock: u64, passed: &mut usize, component: usize) -> u64
    requires clock { clock < 2 ^ 64 - 1 }
    requires component { component < 2 ^ 64 - 1 }
    ensures here { result ≡ clock_at clock passed.new component }
    ensures later { clock_at clock passed.old component ≤ result }
    ensures others { (j : ℕ) → j ≢ component
        → clock_at clock passed.new j ≡ clock_at clock passed.old j }
{
    if component == *passed {
        *passed = component + 1;
        clock + 1
    } else {
        clock_of(clock, *passed, component)
    }
}

/// Notes when a component is due, where it counts or did before; else it was never due, nor is it.
#[inline(always)]
fn put_due(dues: &mut Dues, component: usize, counts: bool, paced: &Paced)
    requires there { component < length dues.old }
    requires same { counts ≡ false → slice_index_or dues.old component 0 ≡ due_of paced.now }
    ensures { dues.new ≡ set dues.old component (due_of paced.now) }
{
    if counts {
        dues.put(component, paced.due());
    }
}

/// All before a place have passed, of so many. Once all have, a new round of the clock begins; at
/// the clock's end none does, and they stay passed.
#[inline(always)]
fn pass_to(clock: &mut u64, passed: &mut usize, place: usize, count: usize)
    requires { clock.old < 2 ^ 64 - 2 }
    ensures fits { clock.new < 2 ^ 64 - 2 }
    ensures before { (i : ℕ) → i < place → clock_at clock.new passed.new i ≡ clock.old + 1 }
    ensures behind { (i : ℕ) → place ≤ i → i < count
        → clock_at clock.new passed.new i ≡ clock.old }
{
    *passed = place;
    if place == count && *clock < NEVER - 2 {
        *clock += 1;
        *passed = 0;
    }
}

impl Players {
    /// Each component of a script at its first action. This takes all the memory that is ever
    /// needed.
    pub fn new(alloc: Global, script: Script) -> Result<Self, NoMemory>
        ensures { IfOk result (λ made. made ≡ map beginning_of script.components) }
    {
        let players = first_paced(alloc, script.components)?;
        let marks = marks_of(alloc, players.as_slice())?;
        let latest = latest_of(alloc, players.as_slice())?;
        let dues = Dues::new(alloc, players.len())?;
        Ok(Players {
            players,
            marks,
            latest,
            dues,
            clock: 0,
            passed: 0,
        })
    }

    /// How many components there are.
    pub fn count(&self) -> usize
        ensures { result ≡ length self.now }
    {
        self.players.len()
    }

    /// A component, of whose rounds some may not be counted yet.
    #[inline(always)]
    fn player(&self, component: usize) -> &Player
        requires { component < length self.now }
        ensures rest { result.now.rest ≡ (player_of self.now component).rest }
        ensures fresh { (result.now.seen == 0) ≡ ((player_of self.now component).seen == 0) }
    {
        &self.players.at(component).player
    }

    /// What a component wants.
    pub fn wants(&self, component: usize) -> Want<'_>
        requires { component < length self.now }
        ensures { Wants result (present (player_of self.now component)) }
    {
        match self.player(component).present() {
            None => Want::Done,
            Some(Action::Write { port, item, .. }) => Want::Write { port: *port, item },
            Some(Action::Take { port, .. }) => Want::Take { port: *port },
            Some(Action::Pause { .. }) => Want::Rest,
            Some(Action::Repeat { .. }) => unreachable!(),
        }
    }

    /// The port that a component's present action names: None for a pause, and where it is done.
    pub fn port_of(&self, component: usize) -> Option<usize>
        requires { component < length self.now }
        ensures { result ≡ option_and_then port_of_task (present (player_of self.now component)) }
    {
        self.player(component).port()
    }

    /// Whether a component's present action has not seen a round.
    pub fn fresh(&self, component: usize) -> bool
        requires { component < length self.now }
        ensures { result ≡ ((player_of self.now component).seen == 0) }
    {
        self.player(component).seen() == 0
    }

    /// Whether each component is done.
    pub fn all_done(&self) -> bool
        ensures { result ≡ all_done self.now }
    {
        self.marks.left.next_set(0) == self.players.len()
    }

    /// Whether a component counts: its present action is a pause or has a bound.
    pub fn someone_counts(&self) -> bool
        ensures { result ≡ someone_counts self.now }
    {
        self.marks.counting.next_set(0) < self.players.len()
    }

    /// The least place from `from` on whose component is awake, or the number of components if
    /// there is none: no round has seen its present action.
    pub fn next_awake(&self, from: usize) -> usize
        ensures { IsNextAwake self.now from result }
    {
        self.marks.awake.next_set(from)
    }

    /// Whether a component's present action names a port.
    fn names(&self, component: usize, port: usize) -> bool
        requires { component < length self.now }
        ensures { let task = present (player_of self.now component) in
            let named = option_and_then port_of_task task in
            result ≡ option_map_or (λ n. n == port) named false }
    {
        match self.player(component).port() {
            Some(named) => named == port,
            None => false,
        }
    }

    /// The component that came to a port last, if it was noted and stands there.
    fn latest_at(&self, port: usize) -> Option<usize>
        ensures { IfSome result (λ found. NamesPort self.now port found) }
    {
        if port >= self.latest.len() {
            return None;
        }
        let component = *self.latest.at(port);
        if component < self.count() && self.names(component, port) {
            Some(component)
        } else {
            None
        }
    }

    /// The first component whose present action names a port.
    #[inline(never)]
    fn first_at(&self, port: usize) -> Option<usize>
        ensures { IsNamer self.now port result }
    {
        for component in 0..self.count() {
            if self.names(component, port) {
                return Some(component);
            }
        }
        None
    }

    /// A component whose present action names a port, or None where there is none.
    fn at_port(&self, port: usize) -> Option<usize>
        ensures { IsNamer self.now port result }
    {
        match self.latest_at(port) {
            Some(component) => Some(component),
            None => self.first_at(port),
        }
    }

    /// Lets a component be as if no round had seen its present action.
    fn rouse(&mut self, component: usize)
        requires { component < length self.old }
        ensures { IsRoused component self.old self.new }
    {
        if self.fresh(component) {
            return;
        }
        let paced = self.players.at_mut(component);
        paced.player.rouse();
        let mark = Pace::of(&paced.player);
        self.marks.put(component, mark);
        self.dues.put(component, NEVER);
    }

    /// Lets a component whose present action names a port be as if no round had seen that action,
    /// so that it is not idle. Where there is none, nothing happens.
    pub fn rouse_at(&mut self, port: usize)
        ensures { HasRoused port self.old self.new }
    {
        if let Some(component) = self.at_port(port) {
            self.rouse(component);
        }
    }

    /// One round has passed for a component, in which its offer flowed, or did not.
    #[inline(always)]
    pub fn advance(&mut self, component: usize, flowed: bool) -> Step
        requires { component < length self.old }
        ensures { IsAdvanced component flowed self.old self.new result }
    {
        let _count = self.players.len();
        let clock = clock_of(self.clock, self.passed, component);
        let next = pass_one(self.clock, &mut self.passed, component);
        let paced = self.players.at_mut(component);
        let before = Pace::of(&paced.player);
        let step = paced.advance(clock, next, flowed);
        let mark = Pace::of(&paced.player);
        let counts = before.counting || mark.counting;
        note_step(&mut self.latest, component, step, &paced.player);
        put_due(&mut self.dues, component, counts, paced);
        self.marks.change(component, before, mark);
        step
    }

    /// Whether a component is awake.
    #[inline(always)]
    fn is_awake(&self, component: usize) -> bool
        requires { component < length self.now }
        ensures { result ≡ is_awake (player_of self.now component) }
    {
        self.marks.awake.at(component)
    }

    /// Whether a component is awake, or its bound runs out in the round.
    fn goes(&self, component: usize) -> bool
        requires { component < length self.now }
        ensures awake { result ≡ false → is_awake (player_of self.now component) ≡ false }
        ensures last { result ≡ false → is_last (player_of self.now component) ≡ false }
        ensures here { result ≡ true → (is_awake (player_of self.now component)
            || counts (player_of self.now component)) ≡ true }
    {
        let clock = clock_of(self.clock, self.passed, component);
        let due = self.dues.at(component);
        self.marks.awake.at(component) || (due != NEVER && due <= clock.saturating_add(1))
    }

    /// As `pass_on`, one by one.
    #[inline(never)]
    fn pass_each(&mut self, from: usize) -> usize
        ensures { HavePassed from result self.old self.new }
    {
        let mut place = from;
        while place < self.count() && !self.goes(place) {
            let _stays = self.advance(place, false);
            place += 1;
        }
        place.min(self.count())
    }

    /// As `pass_on`, all at once where a round has passed for exactly those before `from`.
    fn pass_more(&mut self, from: usize) -> usize
        ensures { HavePassed from result self.old self.new }
    {
        if from != self.passed {
            return self.pass_each(from);
        }
        let awake = self.marks.awake.next_set(from);
        let place = self.dues.next(from, awake, self.clock + 1);
        let count = self.players.len();
        pass_to(&mut self.clock, &mut self.passed, place, count);
        place
    }

    /// One round passes for the components from `from` on that are idle or wait and whose bound
    /// does not run out in it, up to the first that is awake or whose bound runs out, which is
    /// answered, or the number of components if there is none. All are passed at once where a
    /// round has passed for exactly those before `from`, by this call and by `advance`.
    #[inline(always)]
    pub fn pass_on(&mut self, from: usize) -> usize
        ensures { HavePassed from result self.old self.new }
    {
        if from < self.count() && self.is_awake(from) {
            return from;
        }
        self.pass_more(from)
    }
}
