//! When each of many is due.
ghost use Rattle.std.specs.Prelude.{◌≡◌, ◌<◌, ◌≤◌, ◌/◌, IfOk, length, replicate, set, slice_index_or};
ghost use Rattle.reo_flags.specs.dues.Next.{IsNextDue};

use crate::dues::search::{BLOCK, block_end, block_start, least_of, scan};
use reo_values::{List, NoMemory};
use std::alloc::Global;
use std::marker::Model;

/// A time that never comes.
pub const NEVER: u64 = u64::MAX;

/// So many times, for each of many when it is due, for each block of them a time before which none
/// of it is due, and one for all blocks. Contracts see the list of times.
#[derive(Drop)]
pub struct Dues {
    times: List<u64>,
    least: List<u64>,
    soonest: u64,
}

impl Model for Dues {
    ghost use Rattle.std.specs.Prelude.{List, ℕ};
    ghost use Rattle.reo_flags.specs.dues.Blocks.{AreLeast};

    ghost Value = { List ℕ };

    ghost view = { λ d. d.times };

    ghost invariant = { λ d. AreLeast d.times d.least d.soonest };
}

/// So many times, all of which are this one. `NoMemory` is out of memory.
fn same_times(alloc: Global, count: usize, time: u64) -> Result<List<u64>, NoMemory>
    ensures { IfOk result (λ made. made ≡ replicate count time) }
{
    match vec![in alloc; time; count] {
        Ok(times) => Ok(List::from_vec(times)),
        Err(_) => Err(NoMemory),
    }
}

impl Dues {
    /// So many that are never due. `NoMemory` is out of memory.
    pub fn new(alloc: Global, count: usize) -> Result<Dues, NoMemory>
        ensures { IfOk result (λ made. made ≡ replicate count NEVER) }
    {
        let least = same_times(alloc, count / BLOCK + 1, NEVER)?;
        let times = same_times(alloc, count, NEVER)?;
        Ok(Dues {
            times,
            least,
            soonest: NEVER,
        })
    }

    /// How many there are.
    pub fn len(&self) -> usize
        ensures { result ≡ length self.now }
    {
        self.times.len()
    }

    /// When the one at a place is due.
    #[inline(always)]
    pub fn at(&self, place: usize) -> u64
        requires { place < length self.now }
        ensures { result ≡ slice_index_or self.now place 0 }
    {
        *self.times.at(place)
    }

    /// Lets the one at a place be due at a time. All others stay.
    #[inline(always)]
    pub fn put(&mut self, place: usize, time: u64)
        requires { place < length self.old }
        ensures { self.new ≡ set self.old place time }
    {
        *self.times.at_mut(place) = time;
        let least = self.least.at_mut(place / BLOCK);
        *least = (*least).min(time);
        self.soonest = self.soonest.min(time);
    }

    /// Notes the least time of the block of a place.
    fn tighten(&mut self, place: usize)
        requires { place < length self.old }
        ensures { self.new ≡ self.old }
    {
        let end = block_end(place).min(self.times.len());
        let least = least_of(self.times.as_slice(), block_start(place), end);
        *self.least.at_mut(place / BLOCK) = least;
        self.soonest = self.soonest.min(least);
    }

    /// As `next`, block by block.
    fn search(&mut self, from: usize, limit: usize, by: u64) -> usize
        requires { limit ≤ length self.old }
        ensures stays { self.new ≡ self.old }
        ensures next { IsNextDue self.old from limit by result }
    {
        let mut place = from;
        while place < limit {
            let block = block_end(place);
            let end = block.min(limit);
            if *self.least.at(place / BLOCK) <= by {
                let found = scan(self.times.as_slice(), place, end, by);
                if found < end {
                    return found;
                }
                if end == block || end == self.times.len() {
                    self.tighten(place);
                }
            }
            place = end;
        }
        limit
    }

    /// Notes the least time of all.
    fn tighten_all(&mut self)
        ensures { self.new ≡ self.old }
    {
        self.soonest = least_of(self.least.as_slice(), 0, self.least.len());
    }

    /// The least place from `from` on, before `limit`, whose time is `by` or sooner; `limit` if
    /// there is none.
    #[inline(always)]
    pub fn next(&mut self, from: usize, limit: usize, by: u64) -> usize
        requires { limit ≤ length self.old }
        ensures stays { self.new ≡ self.old }
        ensures next { IsNextDue self.old from limit by result }
    {
        if by < self.soonest {
            return limit;
        }
        let found = self.search(from, limit, by);
        if from == 0 && found == self.times.len() {
            self.tighten_all();
        }
        found
    }
}
