//! Sides that wait to be narrowed.

use crate::sets::filled;
use reo_values::{List, NoMemory};
use std::alloc::Global;

/// When a side that waits is narrowed: what is told from outside goes before what is narrowed by
/// it, and mergers and replicators, which look at all their ends, come last.
#[derive(Clone, Copy)]
pub(crate) enum Rank {
    Soon,
    Later,
    Last,
}

/// Sides on a stack.
#[derive(Drop)]
struct Stack {
    sides: List<usize>,
    count: usize,
}

impl Stack {
    /// With room for so many. `NoMemory` is out of memory.
    fn new(alloc: Global, room: usize) -> Result<Stack, NoMemory> {
        Ok(Stack {
            sides: filled(alloc, 0usize, room)?,
            count: 0,
        })
    }

    /// Puts a side on it.
    fn put(&mut self, side: usize) {
        if self.count < self.sides.len() {
            *self.sides.at_mut(self.count) = side;
            self.count += 1;
        }
    }

    /// Takes the last one.
    fn take(&mut self) -> Option<usize> {
        let left = self.count.checked_sub(1)?;
        let side = self.sides.get(left).copied();
        self.count = left;
        side
    }
}

/// When a side is narrowed, and whether it waits.
#[derive(Clone, Copy)]
struct Waiting {
    rank: Rank,
    waits: bool,
}

/// Sides that wait: each once, by their ranks. What waits decides how much is narrowed, and never
/// what is right: no contract speaks of it.
#[derive(Drop)]
pub(crate) struct WaitingLine {
    entries: List<Waiting>,
    soon: Stack,
    later: Stack,
    last: Stack,
}

impl WaitingLine {
    /// For so many sides, none of which waits. `NoMemory` is out of memory.
    pub(crate) fn new(alloc: Global, sides: usize) -> Result<WaitingLine, NoMemory> {
        let entry = Waiting {
            rank: Rank::Soon,
            waits: false,
        };
        Ok(WaitingLine {
            entries: filled(alloc, entry, sides)?,
            soon: Stack::new(alloc, sides)?,
            later: Stack::new(alloc, sides)?,
            last: Stack::new(alloc, sides)?,
        })
    }

    /// Puts a side where those of its rank wait.
    fn put(&mut self, side: usize, rank: Rank) {
        match rank {
            Rank::Soon => self.soon.put(side),
            Rank::Later => self.later.put(side),
            Rank::Last => self.last.put(side),
        }
    }

    /// Lets a side be of a rank, and wait from the beginning or not. None waits before.
    pub(crate) fn begin(&mut self, side: usize, rank: Rank, waits: bool) {
        if side >= self.entries.len() {
            return;
        }
        *self.entries.at_mut(side) = Waiting { rank, waits };
        if waits {
            self.put(side, rank);
        }
    }

    /// Lets a side wait.
    pub(crate) fn join(&mut self, side: usize) {
        if side >= self.entries.len() {
            return;
        }
        let entry = *self.entries.at(side);
        if entry.waits {
            return;
        }
        *self.entries.at_mut(side) = Waiting {
            rank: entry.rank,
            waits: true,
        };
        self.put(side, entry.rank);
    }

    /// Takes the side that is next, which waits still.
    fn take(&mut self) -> Option<usize> {
        if let Some(side) = self.soon.take() {
            return Some(side);
        }
        if let Some(side) = self.later.take() {
            return Some(side);
        }
        self.last.take()
    }

    /// Takes a side that waits, if there is one.
    pub(crate) fn next(&mut self) -> Option<usize> {
        let side = self.take()?;
        if side < self.entries.len() {
            let rank = self.entries.at(side).rank;
            *self.entries.at_mut(side) = Waiting { rank, waits: false };
        }
        Some(side)
    }

    /// No side waits any more.
    pub(crate) fn clear(&mut self) {
        for _ in 0..u64::MAX {
            if self.next().is_none() {
                return;
            }
        }
    }
}
