//! Rows that are remembered by a key.
ghost use Rattle.std.specs.Prelude.{◌≡◌, ◌<◌, ◌≤◌, ℕ, [], IfOk, IsTrue, OnOk, length, slice_index};
ghost use Rattle.reo_net_laws.specs.Sublists.{part_rows};
ghost use Rattle.reo_part_plans.specs.Remembered.{IsWrittenDown};

use crate::looks::Look;
use reo_flows::copy_over;
use reo_planning::put_rows;
use reo_values::{List, NoMemory, Value};
use std::alloc::Global;

/// The rows of a part, remembered by what was looked at of its sides and the items that decide
/// besides, with the joints that flow by them, and how many choices of values its loop joints have
/// at most.
#[derive(Drop)]
pub struct RememberedRows {
    pub key: List<Look>,
    pub items: List<Option<Value>>,
    pub rows: List<u32>,
    pub flowing: List<usize>,
    pub choices: u64,
}

impl RememberedRows {
    /// Whether it serves at some sides: it allows no more choices than the budget, and has a row
    /// for each of them.
    pub(crate) fn serves(&self, sides: &[usize], budget: u64) -> bool
        ensures few { IsTrue result → self.now.choices ≤ budget }
        ensures one_each { IsTrue result → length self.now.rows ≡ length sides.now }
    {
        self.choices <= budget && self.rows.len() == sides.len()
    }

    /// Writes its rows at some sides and its joints that flow down. `NoMemory` is out of memory.
    pub(crate) fn write_down(
        &self,
        sides: &[usize],
        rows: &mut List<u32>,
        flowing: &mut List<usize>,
    ) -> Result<(), NoMemory>
        requires one_each { length self.now.rows ≡ length sides.now }
        requires rows { (m : ℕ) → m < length sides.now
            → slice_index sides.now m < length rows.old }
        ensures { OnOk result
            (IsWrittenDown self.now sides.now rows.old rows.new flowing.new) }
    {
        copy_over(flowing, self.flowing.as_slice())?;
        put_rows(rows, sides, self.rows.as_slice());
        Ok(())
    }
}

/// An empty list with room for so many. `NoMemory` is out of memory.
pub(crate) fn with_room<T>(alloc: Global, count: usize) -> Result<List<T>, NoMemory>
    ensures { IfOk result (λ made. made ≡ []) }
{
    match Vec::with_capacity(alloc, count) {
        Ok(made) => Ok(List::from_vec(made)),
        Err(_) => Err(NoMemory),
    }
}

/// The rows at some sides. `NoMemory` is out of memory.
pub(crate) fn rows_at(alloc: Global, sides: &[usize], rows: &[u32]) -> Result<List<u32>, NoMemory>
    requires { (m : ℕ) → m < length sides.now → slice_index sides.now m < length rows.now }
    ensures { IfOk result (λ made. made ≡ part_rows sides.now rows.now) }
{
    let mut made = with_room(alloc, sides.len())?;
    for index in 0..sides.len() {
        made.push(rows[sides[index]])?;
    }
    Ok(made)
}
