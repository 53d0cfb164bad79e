//! What is left at joints of lists of values there.
ghost use Rattle.std.specs.Prelude.{◌≡◌, ◌<◌, ℕ, IsTrue, IfOk, MatchOption, filter, length, slice_index};
ghost use Rattle.reo_rows.specs.RowFlags.{flag};
ghost use Rattle.reo_search.specs.choices.Remaining.{HasOneAt, AreKept, HasEmpty};

use reo_rows::RowFlags;
use reo_values::{List, NoMemory};
use std::alloc::Global;

/// Whether at most one flag is set at a joint. This takes no memory.
fn has_one(alive: &RowFlags, joint: usize) -> bool
    requires { joint < length alive.now }
    ensures { IsTrue result → HasOneAt alive.now joint }
{
    let mut some = false;
    for code in 0..alive.width(joint) {
        if alive.is_set(joint, code) {
            if some {
                return false;
            }
            some = true;
        }
    }
    true
}

/// Whether at most one flag is set at each of some joints. This takes no memory.
pub(crate) fn have_one(alive: &RowFlags, joints: &[usize]) -> bool
    requires { (m : ℕ) → m < length joints.now → slice_index joints.now m < length alive.now }
    ensures { IsTrue result → (m : ℕ) → m < length joints.now
        → HasOneAt alive.now (slice_index joints.now m) }
{
    for joint in joints {
        if !has_one(alive, *joint) {
            return false;
        }
    }
    true
}

/// Those of some values whose flags are set at a joint. `NoMemory` is out of memory.
fn kept_at(
    alloc: Global,
    alive: &RowFlags,
    joint: usize,
    values: &List<usize>,
) -> Result<List<usize>, NoMemory>
    requires { joint < length alive.now }
    ensures { IfOk result (λ kept. kept ≡ filter (λ c. flag alive.now joint c) values.now) }
{
    let mut kept = List::new(alloc);
    let width = alive.width(joint);
    for code in values.as_slice() {
        if *code < width && alive.is_set(joint, *code) {
            kept.push(*code)?;
        }
    }
    Ok(kept)
}

/// Those of the values of each list whose flags are set at its joint: `None` where there are none
/// at one of them. `NoMemory` is out of memory.
pub(crate) fn kept_of(
    alloc: Global,
    alive: &RowFlags,
    joints: &[usize],
    left: &List<List<usize>>,
) -> Result<Option<List<List<usize>>>, NoMemory>
    requires joints { (m : ℕ) → m < length joints.now
        → slice_index joints.now m < length alive.now }
    requires left { length left.now ≡ length joints.now }
    ensures { IfOk result (λ kept. MatchOption kept (HasEmpty alive.now joints.now left.now)
        (AreKept alive.now joints.now left.now (length joints.now))) }
{
    let mut all = List::new(alloc);
    for index in 0..joints.len() {
        let kept = kept_at(alloc, alive, joints[index], left.at(index))?;
        if kept.is_empty() {
            return Ok(None);
        }
        all.push(kept)?;
    }
    Ok(Some(all))
}
