//! Tables of flags.
ghost use Rattle.std.specs.Prelude.{◌≡◌, ◌==◌, ◌&&◌, ◌<◌, ◌+◌, ℕ, cond, not, true, false, [], ◌∷◌, ◌++◌, IfOk, OnOk, OnErr, length, replicate, slice_index_or};
ghost use Rattle.reo_rows.specs.RowFlags.{flag, count_set, AreAlikeTables};

use reo_values::{List, NoMemory};
use std::alloc::Global;
use std::marker::Model;

/// Rows of flags. Contracts see a list of lists.
#[derive(Drop)]
pub struct RowFlags {
    rows: List<List<bool>>,
}

impl Model for RowFlags {
    ghost use Rattle.std.specs.Prelude.{List, Bool};

    ghost Value = { List (List Bool) };

    ghost view = { λ f. f.rows };
}

/// So many flags, all alike. `NoMemory` is out of memory.
fn row_of(alloc: Global, count: usize, value: bool) -> Result<List<bool>, NoMemory>
    ensures { IfOk result (λ row. row ≡ replicate count value) }
{
    match vec![in alloc; value; count] {
        Ok(list) => Ok(List::from_vec(list)),
        Err(_) => Err(NoMemory),
    }
}

/// The same row once more. `NoMemory` is out of memory.
fn copy_of(alloc: Global, row: &List<bool>) -> Result<List<bool>, NoMemory>
    ensures { IfOk result (λ copy. copy ≡ row.now) }
{
    match Vec::from_slice(alloc, row.as_slice()) {
        Ok(list) => Ok(List::from_vec(list)),
        Err(_) => Err(NoMemory),
    }
}

impl RowFlags {
    /// No rows. This takes no memory.
    pub fn new(alloc: Global) -> RowFlags
        ensures { result ≡ [] }
    {
        RowFlags {
            rows: List::new(alloc),
        }
    }

    /// The same flags once more. `NoMemory` is out of memory.
    pub fn copied(&self, alloc: Global) -> Result<RowFlags, NoMemory>
        ensures { IfOk result (λ copy. copy ≡ self.now) }
    {
        let mut rows = List::new(alloc);
        for row in self.rows.as_slice() {
            rows.push(copy_of(alloc, row)?)?;
        }
        Ok(RowFlags { rows })
    }

    /// One more row of so many flags, all alike. After `NoMemory`, which is out of memory, the rows
    /// are as they were.
    pub fn push_row(&mut self, alloc: Global, count: usize, value: bool) -> Result<(), NoMemory>
        ensures ok { OnOk result (self.new ≡ self.old ++ replicate count value ∷ []) }
        ensures err { OnErr result (self.new ≡ self.old) }
    {
        let row = row_of(alloc, count, value)?;
        self.rows.push(row)
    }

    /// How many rows there are.
    pub fn len(&self) -> usize
        ensures { result ≡ length self.now }
    {
        self.rows.len()
    }

    /// How many flags a row has.
    pub fn width(&self, row: usize) -> usize
        requires { row < length self.now }
        ensures { result ≡ length (slice_index_or self.now row []) }
    {
        self.rows.at(row).len()
    }

    /// Whether a flag is set.
    pub fn is_set(&self, row: usize, place: usize) -> bool
        requires row { row < length self.now }
        requires place { place < length (slice_index_or self.now row []) }
        ensures { result ≡ flag self.now row place }
    {
        *self.rows.at(row).at(place)
    }

    /// Clears a flag that is set. All else stays.
    pub fn clear(&mut self, row: usize, place: usize)
        requires row { row < length self.old }
        requires place { place < length (slice_index_or self.old row []) }
        requires was { flag self.old row place ≡ true }
        ensures alike { AreAlikeTables self.old self.new }
        ensures flags { (i p : ℕ) → flag self.new i
            p ≡ (flag self.old i p && not ((i == row) && (p == place))) }
        ensures fewer { count_set self.new + 1 ≡ count_set self.old }
    {
        let flags = self.rows.at_mut(row);
        *flags.at_mut(place) = false;
    }

    /// Gives a flag this value. All else stays.
    pub fn put(&mut self, row: usize, place: usize, value: bool)
        requires row { row < length self.old }
        requires place { place < length (slice_index_or self.old row []) }
        ensures alike { AreAlikeTables self.old self.new }
        ensures flags { (i p : ℕ) → flag self.new i p ≡ cond ((i == row) && (p == place)) value
            (flag self.old i p) }
    {
        let flags = self.rows.at_mut(row);
        *flags.at_mut(place) = value;
    }

    /// Puts a row of so many flags, all alike, in the place of a row. After `NoMemory`, which is
    /// out of memory, the rows are as they were.
    pub fn renew(
        &mut self,
        alloc: Global,
        row: usize,
        count: usize,
        value: bool,
    ) -> Result<(), NoMemory>
        requires { row < length self.old }
        ensures one_each { length self.new ≡ length self.old }
        ensures here { OnOk result (slice_index_or self.new row [] ≡ replicate count value) }
        ensures other { (i : ℕ) → (i ≡ row → ⊥) → slice_index_or self.new i [] ≡ slice_index_or
            self.old i [] }
        ensures err { OnErr result (self.new ≡ self.old) }
    {
        let flags = row_of(alloc, count, value)?;
        *self.rows.at_mut(row) = flags;
        Ok(())
    }
}
