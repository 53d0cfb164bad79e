//! The forms that the table of a side can have.
ghost use Rattle.std.specs.Prelude.{◌≡◌};
ghost use Rattle.reo_net_base.specs.Forms.{rows_by, mark_by, class_by, groups_by, group_by, common_by, apart_by, leads_by, period_in, number_in};

use crate::branches::Branches;
use crate::branching;
use crate::mark::Mark;
use crate::table::Table;

/// The table of a side as it is listed, or how many branches a merger or a replicator has.
#[derive(Clone, Copy, Debug)]
pub enum Form {
    /// One end with this table.
    Single(Table),
    /// Two ends with this table.
    Double(Table),
    /// A merger with so many inputs.
    Merging(Branches),
    /// A replicator with so many outputs.
    Replicating(Branches),
}

impl Form {
    /// How many rows there are, the jam row counted.
    pub fn rows(self) -> usize
        ensures { result ≡ rows_by self }
    {
        match self {
            Form::Single(table) | Form::Double(table) => table.count(),
            Form::Merging(branches) | Form::Replicating(branches) => branches.count + 3,
        }
    }

    /// What a row says of an end.
    pub fn mark(self, row: usize, end: usize) -> Mark
        ensures { result ≡ mark_by self row end }
    {
        match self {
            Form::Single(table) => table.mark(row, 0),
            Form::Double(table) => table.mark(row, end),
            Form::Merging(branches) => branching::merger_mark(branches, row, end),
            Form::Replicating(branches) => branching::replicator_mark(branches, row, end),
        }
    }

    /// The class of a row in the round of this number.
    pub fn class(self, row: usize, turn: u64) -> usize
        ensures { result ≡ class_by self row turn }
    {
        match self {
            Form::Single(table) | Form::Double(table) => table.class(row),
            Form::Merging(branches) => branching::merger_class(branches, row, turn),
            Form::Replicating(branches) => branching::replicator_class(branches, row),
        }
    }

    /// How many groups of rows there are.
    pub fn groups(self) -> usize
        ensures { result ≡ groups_by self }
    {
        match self {
            Form::Single(table) | Form::Double(table) => table.count(),
            Form::Merging(_) | Form::Replicating(_) => 4,
        }
    }

    /// The group of a row.
    pub fn group(self, row: usize) -> usize
        ensures { result ≡ group_by self row }
    {
        match self {
            Form::Single(_) | Form::Double(_) => row,
            Form::Merging(branches) => branching::merger_group(branches, row),
            Form::Replicating(branches) => branching::replicator_group(branches, row),
        }
    }

    /// What the rows of a group say of an end, but for those that are apart there.
    pub fn common(self, group: usize, end: usize) -> Mark
        ensures { result ≡ common_by self group end }
    {
        match self {
            Form::Single(table) => table.mark(group, 0),
            Form::Double(table) => table.mark(group, end),
            Form::Merging(branches) => branching::merger_common(branches, group, end),
            Form::Replicating(_) => branching::replicator_common(group, end),
        }
    }

    /// The one end at which a row is not as its group, if there is one.
    pub fn apart(self, row: usize) -> Option<usize>
        ensures { result ≡ apart_by self row }
    {
        match self {
            Form::Single(_) | Form::Double(_) => None,
            Form::Merging(branches) => branching::merger_apart(branches, row),
            Form::Replicating(branches) => branching::replicator_apart(branches, row),
        }
    }

    /// Whether the side leads: mergers alone do.
    pub fn leads(self) -> bool
        ensures { result ≡ leads_by self }
    {
        matches!(self, Form::Merging(_))
    }

    /// After how many rounds the classes are the same again.
    pub fn period(self) -> u64
        ensures { result ≡ period_in self }
    {
        match self {
            Form::Merging(branches) => branches.count as u64,
            _ => 1,
        }
    }

    /// The number of the form. No other table has it, and below 16 are those with one or two ends.
    pub fn number(self) -> u32
        ensures { result ≡ number_in self }
    {
        match self {
            Form::Single(table) => table.place(),
            Form::Double(table) => 7 + table.place(),
            Form::Merging(branches) => 16 + 2 * branches.count as u32,
            Form::Replicating(branches) => 17 + 2 * branches.count as u32,
        }
    }
}
