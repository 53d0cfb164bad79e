//! Sides with one or two ends, whose rows are listed.
ghost use Rattle.std.specs.Prelude.{◌≡◌, ◌&&◌, true, false};
ghost use Rattle.reo_net_base.specs.Rows.{classes_of, mark_in};
ghost use Rattle.reo_net_base.specs.Tables.{rows_of};
ghost use Rattle.reo_mark_sets.specs.Listed.{used_at, used_pair, fits_one, fits_two, first_fit, are_taken, is_single};
ghost use Rattle.reo_mark_sets.specs.PlainMarks.{has, only, are_within};

use crate::marks::PlainMarks;
use reo_net_base::{Mark, Table};

/// Marks of two ends.
#[derive(Clone, Copy)]
pub(crate) struct Pair {
    pub first: PlainMarks,
    pub second: PlainMarks,
}

/// The marks of an end of some rows, and their class.
#[derive(Clone, Copy)]
pub(crate) struct OfClass {
    pub class: usize,
    pub marks: PlainMarks,
}

/// The marks of two ends of some rows, and their class.
#[derive(Clone, Copy)]
pub(crate) struct PairOfClass {
    pub class: usize,
    pub pair: Pair,
}

/// A row, and whether its marks are among some.
#[derive(Clone, Copy)]
pub(crate) struct Fit {
    pub row: usize,
    pub fits: bool,
}

/// The marks that the rows with one of some marks have at their one end.
pub(crate) fn narrowed_one(table: Table, a: PlainMarks) -> PlainMarks
    ensures { result ≡ used_at (rows_of table) (fits_one a) 0 }
{
    match table {
        Table::Ready | Table::Lossy => PlainMarks {
            flow: a.flow,
            given: false,
            required: a.required,
        },
        Table::Resting | Table::Spent => PlainMarks {
            flow: false,
            given: a.given,
            required: false,
        },
        Table::Together | Table::OneOfTwo | Table::Filter => a,
    }
}

/// The marks that the rows with one of some marks at each of their two ends have there.
pub(crate) fn narrowed_two(table: Table, a: PlainMarks, b: PlainMarks) -> Pair
    ensures { result ≡ used_pair (rows_of table) a b }
{
    let flow = a.flow & b.flow;
    let first = a.required & b.given;
    let second = a.given & b.required;
    match table {
        Table::Ready | Table::Resting => Pair {
            first: PlainMarks::none(),
            second: PlainMarks::none(),
        },
        Table::Together => Pair {
            first: PlainMarks {
                flow,
                given: second,
                required: first,
            },
            second: PlainMarks {
                flow,
                given: first,
                required: second,
            },
        },
        Table::Lossy => Pair {
            first: PlainMarks {
                flow: a.flow & (b.flow | b.required),
                given: false,
                required: first,
            },
            second: PlainMarks {
                flow,
                given: first,
                required: a.flow & b.required,
            },
        },
        Table::OneOfTwo => Pair {
            first: PlainMarks {
                flow: a.flow & b.given,
                given: a.given & b.flow,
                required: a.required & b.required,
            },
            second: PlainMarks {
                flow: a.given & b.flow,
                given: a.flow & b.given,
                required: a.required & b.required,
            },
        },
        Table::Filter => Pair {
            first: PlainMarks {
                flow: a.flow & (b.flow | b.given),
                given: second,
                required: first,
            },
            second: PlainMarks {
                flow,
                given: (a.flow | a.required) & b.given,
                required: second,
            },
        },
        Table::Spent => {
            let given = a.given & b.given;
            Pair {
                first: PlainMarks {
                    flow: false,
                    given,
                    required: false,
                },
                second: PlainMarks {
                    flow: false,
                    given,
                    required: false,
                },
            }
        }
    }
}

/// Of the rows of one end with one of some marks those of the least class.
pub(crate) fn classed_one(table: Table, a: PlainMarks) -> OfClass
    requires { is_single table ≡ true }
    ensures taken { let rows = rows_of table in
        are_taken result.class rows (classes_of rows) (fits_one a) (fits_one result.marks) ≡ true }
    ensures within { are_within result.marks a ≡ true }
{
    if matches!(table, Table::Resting) {
        OfClass { class: 0, marks: a }
    } else if a.flow {
        OfClass {
            class: 0,
            marks: a.only(Mark::F),
        }
    } else {
        OfClass { class: 1, marks: a }
    }
}

/// Marks of two ends, one mark for each.
fn chosen(a: PlainMarks, first: Mark, b: PlainMarks, second: Mark) -> Pair
    ensures { result ≡ record { first = only a first; second = only b second } }
{
    Pair {
        first: a.only(first),
        second: b.only(second),
    }
}

/// Of the rows of two ends with one of some marks at each those of the least class.
pub(crate) fn classed_two(table: Table, a: PlainMarks, b: PlainMarks) -> PairOfClass
    ensures taken { let rows = rows_of table in
        are_taken result.class rows (classes_of rows) (fits_two a b)
        (fits_two result.pair.first result.pair.second) ≡ true }
    ensures first { are_within result.pair.first a ≡ true }
    ensures second { are_within result.pair.second b ≡ true }
{
    match table {
        Table::Ready | Table::Resting | Table::Spent => PairOfClass {
            class: 0,
            pair: Pair {
                first: a,
                second: b,
            },
        },
        Table::Together => if a.flow && b.flow {
            PairOfClass {
                class: 0,
                pair: chosen(a, Mark::F, b, Mark::F),
            }
        } else {
            PairOfClass {
                class: 1,
                pair: Pair {
                    first: a,
                    second: b,
                },
            }
        },
        Table::Lossy => if a.flow && b.flow {
            PairOfClass {
                class: 0,
                pair: chosen(a, Mark::F, b, Mark::F),
            }
        } else if a.flow && b.required {
            PairOfClass {
                class: 1,
                pair: chosen(a, Mark::F, b, Mark::R),
            }
        } else {
            PairOfClass {
                class: 2,
                pair: Pair {
                    first: a,
                    second: b,
                },
            }
        },
        Table::OneOfTwo => if a.flow && b.given {
            PairOfClass {
                class: 0,
                pair: chosen(a, Mark::F, b, Mark::G),
            }
        } else if a.given && b.flow {
            PairOfClass {
                class: 1,
                pair: chosen(a, Mark::G, b, Mark::F),
            }
        } else {
            PairOfClass {
                class: 2,
                pair: Pair {
                    first: a,
                    second: b,
                },
            }
        },
        Table::Filter => if a.flow && b.flow {
            PairOfClass {
                class: 0,
                pair: chosen(a, Mark::F, b, Mark::F),
            }
        } else if a.flow && b.given {
            PairOfClass {
                class: 1,
                pair: chosen(a, Mark::F, b, Mark::G),
            }
        } else {
            PairOfClass {
                class: 2,
                pair: Pair {
                    first: a,
                    second: b,
                },
            }
        },
    }
}

/// The first row of one end with one of some marks, or else the last.
pub(crate) fn first_one(table: Table, a: PlainMarks) -> Fit
    requires { is_single table ≡ true }
    ensures row { result.row ≡ first_fit (rows_of table) (fits_one a) }
    ensures fits { result.fits ≡ has a (mark_in (rows_of table) result.row 0) }
{
    if matches!(table, Table::Resting) {
        fitting(0, a.given)
    } else if a.flow {
        fitting(0, true)
    } else {
        fitting(1, a.required)
    }
}

/// A row of this number, which fits or not.
fn fitting(row: usize, fits: bool) -> Fit
    ensures { result ≡ record { row = row; fits = fits } }
{
    Fit { row, fits }
}

/// The first row of two ends with one of some marks at each, or else the last.
pub(crate) fn first_two(table: Table, a: PlainMarks, b: PlainMarks) -> Fit
    requires { is_single table ≡ false }
    ensures row { result.row ≡ first_fit (rows_of table) (fits_two a b) }
    ensures fits { let rows = rows_of table in
        result.fits ≡ (has a (mark_in rows result.row 0) && has b (mark_in rows result.row 1)) }
{
    let flow = a.flow & b.flow;
    let first = a.required & b.given;
    let second = a.given & b.required;
    match table {
        Table::Ready | Table::Resting | Table::Spent => fitting(0, a.given & b.given),
        Table::Together => if flow {
            fitting(0, true)
        } else if first {
            fitting(1, true)
        } else {
            fitting(2, second)
        },
        Table::Lossy => if flow {
            fitting(0, true)
        } else if a.flow & b.required {
            fitting(1, true)
        } else {
            fitting(2, first)
        },
        Table::OneOfTwo => if a.flow & b.given {
            fitting(0, true)
        } else if a.given & b.flow {
            fitting(1, true)
        } else {
            fitting(2, a.required & b.required)
        },
        Table::Filter => if flow {
            fitting(0, true)
        } else if a.flow & b.given {
            fitting(1, true)
        } else if first {
            fitting(2, true)
        } else {
            fitting(3, second)
        },
    }
}
