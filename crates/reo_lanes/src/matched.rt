//! The joint rule on two bytes, and on 32 pairs at once.
ghost use Rattle.std.specs.Prelude.{◌≡◌};
ghost use Rattle.reo_lanes.specs.Joints.{bytes_match, both_are, one_is};
ghost use Rattle.reo_lanes.specs.Lanes.{broken_mask};

use std::simd::prelude::*;

/// An item flows.
const FLOW: u8 = 1;

/// A reason is given.
const GIVEN: u8 = 2;

/// Jam.
const JAM: u8 = 8;

/// The joint rule on two bytes: both flow, or both jam, or neither flows or jams and at least one
/// gives a reason.
pub(crate) fn bytes_match(left: u8, right: u8) -> bool
    ensures { result ≡ bytes_match left right }
{
    both_marks(left, right, FLOW)
        || both_marks(left, right, JAM)
        || one_mark(left, right, GIVEN)
            && !(one_mark(left, right, FLOW) || one_mark(left, right, JAM))
}

/// Whether both bytes are the mark.
fn both_marks(left: u8, right: u8, mark: u8) -> bool
    ensures { result ≡ both_are mark left right }
{
    left == mark && right == mark
}

/// Whether at least one of the bytes is the mark.
fn one_mark(left: u8, right: u8, mark: u8) -> bool
    ensures { result ≡ one_is mark left right }
{
    left == mark || right == mark
}

/// A bit for each pair of one load, set where the pair breaks the joint rule.
#[inline(always)]
pub(crate) fn broken_lanes(left: u8x32, right: u8x32) -> u64
    ensures { result ≡ broken_mask left right }
{
    let (flow, given, jam) = (u8x32::splat(FLOW), u8x32::splat(GIVEN), u8x32::splat(JAM));
    let both_flow = left.simd_eq(flow) & right.simd_eq(flow);
    let both_jam = left.simd_eq(jam) & right.simd_eq(jam);
    let one_gives = left.simd_eq(given) | right.simd_eq(given);
    let one_flows = left.simd_eq(flow) | right.simd_eq(flow);
    let one_jams = left.simd_eq(jam) | right.simd_eq(jam);
    let matched = both_flow | (both_jam | (one_gives & !(one_flows | one_jams)));
    (!matched).to_bitmask()
}
