//! Loop counters.
ghost use Rattle.std.specs.Prelude.{◌≡◌, ◌+◌, ◌≤◌, ◌<◌, true, [], length, drop, IfOk, Some, IsSome};
ghost use Rattle.std.specs.List.{flat_map};
ghost use Rattle.reo_players.specs.Written.{written};
ghost use Rattle.reo_players.specs.Counters.{levels_of, levels_within, rest_of, rest_within, Stands, StandsHere, IsLive, AreLive, PassedOn, PassedWithin, IsOneTask, task_of};
ghost use Rattle.reo_rules.specs.Lists.{first_of};

use reo_script::Action;
use reo_values::NoMemory;

/// A place in a list of actions. Where a repeat stands there, `left` is how many times its body is
/// still to come behind this time.
#[derive(Clone, Copy, Debug, PartialEq, Eq)]
pub struct Counter {
    pub place: usize,
    pub left: u32,
}

/// How many counters a list with an action takes at least. `NoMemory`: more than any list has.
#[cycle(levels)]
fn levels_with(action: &Action) -> Result<usize, NoMemory>
    ensures { IfOk result (λ n. n ≡ levels_within action.now + 1) }
{
    match action {
        Action::Repeat { body, .. } => {
            let within = levels(body.as_slice())?;
            if within == usize::MAX {
                return Err(NoMemory);
            }
            Ok(within + 1)
        }
        Action::Write { .. } | Action::Take { .. } | Action::Pause { .. } => Ok(1),
    }
}

/// How many counters a list of actions takes. `NoMemory`: more than any list has.
#[cycle(levels)]
pub fn levels(actions: &[Action]) -> Result<usize, NoMemory>
    ensures { IfOk result (λ n. n ≡ levels_of actions.now) }
{
    let mut most: usize = 0;
    for action in actions {
        most = most.max(levels_with(action)?);
    }
    Ok(most)
}

/// Stands at the first task of an action.
#[cycle(stand)]
fn stand_within(action: &Action, here: &mut Counter, inner: &mut [Counter])
    requires live { IsLive action.now }
    requires room { levels_within action.now ≤ length inner.old }
    ensures place { here.new.place ≡ here.old.place }
    ensures stands { StandsHere (Some action.now) (λ body. Stands body inner.new) }
    ensures rest { rest_within action.now here.new inner.new ≡ written action.now }
    ensures same { length inner.new ≡ length inner.old }
{
    match action {
        Action::Repeat { times, body } => {
            here.left = *times - 1;
            stand_at(body.as_slice(), inner, 0);
        }
        Action::Write { .. } | Action::Take { .. } | Action::Pause { .. } => {}
    }
}

/// Stands at the first task at a place of a list.
#[cycle(stand)]
pub fn stand_at(actions: &[Action], counters: &mut [Counter], place: usize)
    requires there { place < length actions.now }
    requires live { AreLive actions.now }
    requires room { levels_of actions.now ≤ length counters.old }
    ensures stands { Stands actions.now counters.new }
    ensures rest { rest_of actions.now counters.new ≡ flat_map written (drop place actions.now) }
    ensures same { length counters.new ≡ length counters.old }
{
    let Some((here, inner)) = counters.split_first_mut() else {
        unreachable!()
    };
    here.place = place;
    stand_within(&actions[place], here, inner);
}

/// Whether a list of actions is a single one that is no repeat.
#[inline(always)]
fn is_one_task(actions: &[Action]) -> bool
    ensures { result ≡ true → IsOneTask actions.now }
{
    if actions.len() != 1 {
        return false;
    }
    match &actions[0] {
        Action::Repeat { .. } => false,
        Action::Write { .. } | Action::Take { .. } | Action::Pause { .. } => true,
    }
}

/// Goes past the task that the counters stand at within the body of a repeat, to the next one in
/// it, if there is one. Where the body is one task, that costs no more than a look.
#[cycle(pass)]
#[inline(always)]
fn pass_body(body: &[Action], counters: &mut [Counter]) -> bool
    requires stands { Stands body.now counters.old }
    requires live { AreLive body.now }
    requires room { levels_of body.now ≤ length counters.old }
    ensures passed { PassedOn result body.now counters.old counters.new }
    ensures same { length counters.new ≡ length counters.old }
{
    if is_one_task(body) {
        return false;
    }
    pass(body, counters)
}

/// Goes past the task that the counters stand at within an action, to the next one within it.
#[cycle(pass)]
fn pass_within(action: &Action, here: &mut Counter, inner: &mut [Counter]) -> bool
    requires stands { StandsHere (Some action.now) (λ body. Stands body inner.old) }
    requires live { IsLive action.now }
    requires room { levels_within action.now ≤ length inner.old }
    ensures passed { PassedWithin result action.now here.old here.new inner.old inner.new }
    ensures same { length inner.new ≡ length inner.old }
{
    match action {
        Action::Repeat { body, .. } => {
            let body = body.as_slice();
            if pass_body(body, inner) {
                return true;
            }
            if here.left == 0 {
                return false;
            }
            here.left -= 1;
            stand_at(body, inner, 0);
            true
        }
        Action::Write { .. } | Action::Take { .. } | Action::Pause { .. } => false,
    }
}

/// Goes past the task that the counters stand at, to the next one, if there is one.
#[cycle(pass)]
pub fn pass(actions: &[Action], counters: &mut [Counter]) -> bool
    requires stands { Stands actions.now counters.old }
    requires live { AreLive actions.now }
    requires room { levels_of actions.now ≤ length counters.old }
    ensures passed { PassedOn result actions.now counters.old counters.new }
    ensures same { length counters.new ≡ length counters.old }
{
    let count = actions.len();
    let Some((here, inner)) = counters.split_first_mut() else {
        unreachable!()
    };
    let place = here.place;
    if pass_within(&actions[place], here, inner) {
        return true;
    }
    if place + 1 == count {
        return false;
    }
    stand_at(actions, counters, place + 1);
    true
}

/// The action at which the counters stand.
pub fn standing<'a>(actions: &'a [Action], counters: &[Counter]) -> &'a Action
    requires stands { Stands actions.now counters.now }
    ensures first { first_of (rest_of actions.now counters.now) ≡ task_of result.now }
    ensures task { IsSome (task_of result.now) }
{
    let Some((here, inner)) = counters.split_first() else {
        unreachable!()
    };
    let action = &actions[here.place];
    match action {
        Action::Repeat { body, .. } => standing(body.as_slice(), inner),
        Action::Write { .. } | Action::Take { .. } | Action::Pause { .. } => action,
    }
}
