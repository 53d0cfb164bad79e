//! The tables of ports, channels and buffers, row by row, the jam row left out.
ghost use Rattle.std.specs.Prelude.{◌≡◌, [], slice_index_or};
ghost use Rattle.reo_net_base.specs.declared.mark.Mark.TheVariants.{J as Jam};
ghost use Rattle.reo_net_base.specs.Rows.{now_of, row_count, mark_in, class_in, classes_of};
ghost use Rattle.reo_net_base.specs.Tables.{rows_of, place_in};

use crate::mark::Mark;
use crate::mark::Mark::{F, G, R};

/// A table.
#[derive(Clone, Copy, Debug, PartialEq, Eq)]
pub enum Table {
    /// One end that can flow.
    Ready,
    /// One end that cannot flow.
    Resting,
    /// Two ends that flow together.
    Together,
    /// Flow through, or a loss where the second end cannot flow.
    Lossy,
    /// Flow at one of two ends.
    OneOfTwo,
    /// Flow through, or a loss of what is not accepted.
    Filter,
    /// Two ends that cannot flow.
    Spent,
}

/// A table as it is listed: the marks of each row, and the class of each row and of the jam row.
#[derive(Clone, Copy)]
struct Listed {
    rows: &'static [&'static [Mark]],
    classes: &'static [usize],
}

/// The rows of a table with their classes.
fn list_of(table: Table) -> Listed
    ensures rows { now_of result.rows.now ≡ rows_of table }
    ensures classes { result.classes.now ≡ classes_of (rows_of table) }
{
    let (rows, classes): (&'static [&'static [Mark]], &'static [usize]) = match table {
        Table::Ready => (&[&[F], &[R]], &[0, 1, 2]),
        Table::Resting => (&[&[G]], &[0, 1]),
        Table::Together => (&[&[F, F], &[R, G], &[G, R]], &[0, 1, 1, 2]),
        Table::Lossy => (&[&[F, F], &[F, R], &[R, G]], &[0, 1, 2, 3]),
        Table::OneOfTwo => (&[&[F, G], &[G, F], &[R, R]], &[0, 1, 2, 3]),
        Table::Filter => (&[&[F, F], &[F, G], &[R, G], &[G, R]], &[0, 1, 2, 2, 3]),
        Table::Spent => (&[&[G, G]], &[0, 1]),
    };
    Listed { rows, classes }
}

/// The marks of a row, and none past the rows.
fn row_at(rows: &'static [&'static [Mark]], row: usize) -> &'static [Mark]
    ensures { result.now ≡ slice_index_or (now_of rows.now) row [] }
{
    if row < rows.len() { rows[row] } else { &[] }
}

/// The mark at a place of a row, and jam past its end.
fn mark_at(marks: &[Mark], end: usize) -> Mark
    ensures { result ≡ slice_index_or marks.now end Jam }
{
    if end < marks.len() {
        marks[end]
    } else {
        Mark::J
    }
}

impl Table {
    /// The place of the table among all of them.
    pub(crate) fn place(self) -> u32
        ensures { result ≡ place_in self }
    {
        match self {
            Table::Ready => 0,
            Table::Resting => 1,
            Table::Together => 2,
            Table::Lossy => 3,
            Table::OneOfTwo => 4,
            Table::Filter => 5,
            Table::Spent => 6,
        }
    }

    /// How many rows there are, the jam row counted.
    pub fn count(self) -> usize
        ensures { result ≡ row_count (rows_of self) }
    {
        list_of(self).classes.len()
    }

    /// What a row says of an end.
    pub fn mark(self, row: usize, end: usize) -> Mark
        ensures { result ≡ mark_in (rows_of self) row end }
    {
        mark_at(row_at(list_of(self).rows, row), end)
    }

    /// The class of a row.
    pub fn class(self, row: usize) -> usize
        ensures { result ≡ class_in (rows_of self) row }
    {
        let classes = list_of(self).classes;
        if row < classes.len() { classes[row] } else { 0 }
    }
}
