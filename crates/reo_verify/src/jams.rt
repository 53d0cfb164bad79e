//! How many cells of a line are the jam row.
ghost use Rattle.std.specs.Prelude.{◌≡◌, ◌<◌, ◌^◌, [], ◌∷◌};
ghost use Rattle.std.specs.List.{count_by, flat_map};
ghost use Rattle.reo_runs.specs.verdicts.Said.{cells_of, is_jam};

use reo_trace::{Cell, Entry};

/// One where a cell is the jam row.
fn jams(cell: Cell) -> u64
    ensures { result ≡ count_by is_jam (cell ∷ []) }
{
    match cell {
        Cell::Row(_) => 0,
        Cell::Jam => 1,
    }
}

/// How many cells of an entry are the jam row.
fn entry_jams(entry: Entry) -> u64
    ensures { result ≡ count_by is_jam (cells_of entry) }
{
    match entry {
        Entry::One(cell) => jams(cell),
        Entry::Two(mouth, tail) => jams(mouth) + jams(tail),
    }
}

/// How many cells of some entries are the jam row.
pub(crate) fn entries_jams(entries: &[Entry]) -> u64
    requires { count_by is_jam (flat_map cells_of entries.now) < 2 ^ 63 }
    ensures { result ≡ count_by is_jam (flat_map cells_of entries.now) }
{
    let mut count = 0;
    for entry in entries {
        count += entry_jams(*entry);
    }
    count
}
