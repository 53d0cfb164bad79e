//! What is kept of parts from round to round.
ghost use Rattle.std.specs.Prelude.{◌≡◌, ◌<◌, ◌≤◌, ◌↔◌, IsTrue, IfOk, length};
ghost use Rattle.reo_planning.specs.Keeping.{AllServe, IsFresh, IsNextUnserved, is_settled, serves};

use crate::rows::some_rows;
use reo_flags::Flags;
use reo_values::{List, NoMemory};
use std::alloc::Global;

/// What is kept of the parts of a circuit: a row for each side, of which those on settled parts are
/// the rows of their first assignments; for each part whether it is settled, and whether something
/// flows in it by these rows; and a budget within which the settled parts are.
#[derive(Drop)]
pub struct Kept {
    pub(crate) rows: List<u32>,
    pub(crate) settled: Flags,
    pub(crate) moving: Flags,
    pub(crate) budget: u64,
}

impl Kept {
    /// For so many sides and parts, of which none is settled. `NoMemory` is out of memory.
    pub fn new(alloc: Global, sides: usize, parts: usize) -> Result<Kept, NoMemory>
        ensures { IfOk result (IsFresh sides parts) }
    {
        let rows = some_rows(alloc, sides)?;
        let settled = Flags::new(alloc, parts, false)?;
        let moving = Flags::new(alloc, parts, true)?;
        Ok(Kept {
            rows,
            settled,
            moving,
            budget: 0,
        })
    }

    /// The rows that are kept, of settled parts and of others. This takes no memory.
    pub fn rows(&self) -> &[u32]
        ensures { result.now ≡ self.now.rows }
    {
        self.rows.as_slice()
    }

    /// For each part whether it is settled. This takes no memory.
    pub fn settled(&self) -> &Flags
        ensures { result.now ≡ self.now.settled }
    {
        &self.settled
    }

    /// For each part whether something flows in it by the rows that are kept. Of parts that are not
    /// settled it tells nothing. This takes no memory.
    pub fn moving(&self) -> &Flags
        ensures { result.now ≡ self.now.moving }
    {
        &self.moving
    }

    /// Whether a part is settled. This takes no memory.
    pub fn is_settled(&self, part: usize) -> bool
        requires { part < length self.now.settled }
        ensures { result ≡ is_settled self.now part }
    {
        self.settled.at(part)
    }

    /// Whether the rows that are kept of a part serve for a budget. This takes no memory.
    pub fn serves(&self, part: usize, budget: u64) -> bool
        requires { part < length self.now.settled }
        ensures { result ≡ serves self.now budget part }
    {
        self.budget <= budget && self.is_settled(part)
    }

    /// The least part from `from` on of which the rows that are kept do not serve for a budget, or
    /// the number of parts if there is none. This takes no memory.
    pub fn next_unserved(&self, budget: u64, from: usize) -> usize
        requires { from ≤ length self.now.settled }
        ensures { IsNextUnserved budget from self.now result }
    {
        if self.budget <= budget {
            self.settled.next_clear(from)
        } else {
            from
        }
    }

    /// Whether the rows that are kept serve for a budget, of all parts. This takes no memory.
    pub fn all_serve(&self, budget: u64) -> bool
        ensures { IsTrue result ↔ AllServe (length self.now.settled) budget self.now }
    {
        self.next_unserved(budget, 0) == self.settled.len()
    }
}
