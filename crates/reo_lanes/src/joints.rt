//! The least joint whose two marks do not match.
ghost use Rattle.std.specs.Prelude.{◌≡◌, ◌+◌, ◌≤◌, length, MatchOption};
ghost use Rattle.reo_lanes.specs.Joints.{MatchBetween, FirstBroken};

use crate::LANES;
use crate::matched::{broken_lanes, bytes_match};
use std::simd::prelude::*;

/// The least place at which `left` and `right` break the joint rule, `None` where there is none. A
/// byte is a mark: 1 is flow, 2 gives a reason, 4 requires a reason, 8 is jam; any other counts as
/// 4 does. Both lists have the same length, which may be any. This takes no memory.
pub fn joints_match(left: &[u8], right: &[u8]) -> Option<usize>
    requires { length left.now ≡ length right.now }
    ensures { MatchOption result (MatchBetween left.now right.now 0 (length left.now))
        (FirstBroken left.now right.now 0 (length left.now)) }
{
    let mut at = 0;
    while left.len() - at >= LANES {
        if let Some(place) = broken_in_chunk(left, right, at) {
            return Some(place);
        }
        at += LANES;
    }
    broken_in_rest(left, right, at)
}

/// The least broken place of the 32 from `at` on.
fn broken_in_chunk(left: &[u8], right: &[u8], at: usize) -> Option<usize>
    requires even { length left.now ≡ length right.now }
    requires inside { at + LANES ≤ length left.now }
    ensures { MatchOption result (MatchBetween left.now right.now at (at + LANES))
        (FirstBroken left.now right.now at (at + LANES)) }
{
    let givers = u8x32::from_slice(&left[at..]);
    let takers = u8x32::from_slice(&right[at..]);
    let broken = broken_lanes(givers, takers);
    if broken == 0 {
        None
    } else {
        Some(at + broken.trailing_zeros() as usize)
    }
}

/// The least broken place from `from` on, one by one.
fn broken_in_rest(left: &[u8], right: &[u8], from: usize) -> Option<usize>
    requires { length left.now ≡ length right.now }
    ensures { MatchOption result (MatchBetween left.now right.now from (length left.now))
        (FirstBroken left.now right.now from (length left.now)) }
{
    for place in from..left.len() {
        if !bytes_match(left[place], right[place]) {
            return Some(place);
        }
    }
    None
}
