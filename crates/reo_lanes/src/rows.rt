//! Rows that a column of bytes lets live.
ghost use Rattle.std.specs.Prelude.{◌≡◌, ◌+◌, ◌≤◌, length};
ghost use Rattle.std.specs.Simd.Lanes.{zip2};
ghost use Rattle.reo_lanes.specs.Rows.{kept_row, kept_rows, KeptBetween};

use crate::LANES;
use std::simd::prelude::*;

/// Clears each row whose cell shares no bit with `allowed`: `live[i]` becomes 0 where `column[i] &
/// allowed` is 0, and stays otherwise. Both lists have the same length, which may be any. This
/// takes no memory.
pub fn keep_rows(column: &[u8], allowed: u8, live: &mut [u8])
    requires { length column.now ≡ length live.old }
    ensures { live.new ≡ kept_rows column.now allowed live.old }
{
    let mut at = 0;
    while column.len() - at >= LANES {
        keep_chunk(column, allowed, live, at);
        at += LANES;
    }
    keep_rest(column, allowed, live, at);
}

/// The 32 rows from `at` on.
fn keep_chunk(column: &[u8], allowed: u8, live: &mut [u8], at: usize)
    requires cells { at + LANES ≤ length column.now }
    requires rows { at + LANES ≤ length live.old }
    ensures { KeptBetween column.now allowed at (at + LANES) live.old live.new }
{
    let cells = u8x32::from_slice(&column[at..]);
    let rows = u8x32::from_slice(&live[at..]);
    kept_lanes(cells, allowed, rows).copy_to_slice(&mut live[at..]);
}

/// The rows of one load by its cells.
#[inline(always)]
fn kept_lanes(cells: u8x32, allowed: u8, rows: u8x32) -> u8x32
    ensures { result ≡ zip2 (kept_row allowed) cells rows }
{
    let none = u8x32::splat(0);
    (cells & u8x32::splat(allowed))
        .simd_eq(none)
        .select(none, rows)
}

/// The rows from `from` on, one by one.
fn keep_rest(column: &[u8], allowed: u8, live: &mut [u8], from: usize)
    requires { length column.now ≡ length live.old }
    ensures { KeptBetween column.now allowed from (length column.now) live.old live.new }
{
    for row in from..column.len() {
        if column[row] & allowed == 0 {
            live[row] = 0;
        }
    }
}
