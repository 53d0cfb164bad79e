//! What is looked at: parts, knots and supplies.
use crate::widths::none_wide;
use reo_knots::Knots;
use reo_reach::Supply;
use reo_search::Part;
use reo_values::Value;

/// Whether these are 0, 1, 2 and so on.
fn are_counted(sides: &[usize]) -> bool {
    for index in 0..sides.len() {
        if sides[index] != index {
            return false;
        }
    }
    true
}

/// Whether a part has these rows, for the sides 0, 1, 2 and so on, and jams or not.
pub fn is_part(part: &Part, rows: &[u32], jammed: bool) -> bool {
    part.jammed == jammed
        && part.sides.len() == rows.len()
        && are_counted(part.sides.as_slice())
        && part.rows.as_slice() == rows
}

/// Whether there is one knot, of these sides, whose loop joints are these.
pub fn is_one_knot(knots: &Knots, sides: &[usize], loops: &[usize]) -> bool {
    knots.count() == 1 && knots.sides(0) == sides && knots.loop_joints(0) == loops
}

/// Whether all items are 1.
fn are_ones(items: &[Value]) -> bool {
    for item in items {
        match item {
            Value::Int(1) => {}
            _ => return false,
        }
    }
    true
}

/// Whether so many items, all of them 1, can stand at each of so many joints, and none of these is
/// wide.
pub fn is_supplied(supply: &Supply, joints: usize, ones: usize) -> bool {
    for items in supply.lists() {
        if items.len() != ones || !are_ones(items.as_slice()) {
            return false;
        }
    }
    supply.lists().len() == joints && none_wide(supply)
}
