//! Columns of bytes, at lengths below, at and above one load.
use crate::checks::is;
use reo_lanes::{joints_match, keep_rows};
use std::test::Fail;

/// Lengths of no load, of one less one, of one, of one and one more, and of very many.
const LENGTHS: &[usize] = &[0, 1, 31, 32, 33, 8_192];

/// The marks, as bytes.
const MARKS: &[u8] = &[1, 2, 4, 8];

/// The places, in the list of all pairs of marks, of those that match: both flow, a given reason
/// with any reason, both jam.
const MATCHING: &[usize] = &[0, 5, 6, 9, 15];

#[test]
fn two_required_reasons_at_the_last_place_do_not_match(rt: HostRuntime) -> Result<(), Fail> {
    let alloc = rt.alloc();
    for length in LENGTHS {
        let mut left = vec![in alloc; 2u8; *length]?;
        let mut right = vec![in alloc; 4u8; *length]?;
        is(&rt, joints_match(&left, &right).is_none(), "reasons given");
        if let Some(last) = left.last_mut() {
            *last = 4;
        }
        let last = joints_match(&left, &right) == length.checked_sub(1);
        is(&rt, last, "two required at the last place");
        if let Some(last) = right.last_mut() {
            *last = 2;
        }
        is(
            &rt,
            joints_match(&left, &right).is_none(),
            "given from right",
        );
    }
    Ok(())
}

#[test]
fn the_joint_rule_holds_in_a_load_and_outside(rt: HostRuntime) -> Result<(), Fail> {
    let alloc = rt.alloc();
    for length in [1, 32] {
        for pair in 0..16 {
            let left = vec![in alloc; MARKS[pair / 4]; length]?;
            let right = vec![in alloc; MARKS[pair % 4]; length]?;
            let matches = MATCHING.contains(&pair);
            let answer = joints_match(&left, &right).is_none() == matches;
            is(&rt, answer, "a pair of marks");
        }
    }
    Ok(())
}

#[test]
fn rows_are_kept_by_the_bits_that_are_allowed(rt: HostRuntime) -> Result<(), Fail> {
    let alloc = rt.alloc();
    for length in LENGTHS {
        let mut column = vec![in alloc; 8u8; *length]?;
        let mut live = vec![in alloc; 7u8; *length]?;
        if let Some(last) = column.last_mut() {
            *last = 4;
        }
        keep_rows(&column, 5, &mut live);
        let kept = live.iter().filter(|row| **row == 7).count();
        is(&rt, kept == usize::from(*length != 0), "one row is kept");
        is(&rt, live.last().is_none_or(|row| *row == 7), "the last row");
    }
    Ok(())
}
