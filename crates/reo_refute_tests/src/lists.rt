//! The items that can stand at joints, in their order.
use crate::writers::merged;
use reo_net_circuit::ends_of;
use reo_refute_parts::item_lists;
use reo_values::{List, Value};
use std::test::Fail;

/// The items of the joints of two writers at a merger: what each offers, and both in the order of
/// the merger's rows.
const ITEMS: &[&[i64]] = &[&[0], &[1], &[0, 1]];

/// Whether an item is this number.
fn is(item: &Value, number: i64) -> bool {
    match item {
        Value::Int(found) => *found == number,
        _ => false,
    }
}

/// Whether a list has these numbers.
fn has(list: &List<Value>, numbers: &[i64]) -> bool {
    if list.len() != numbers.len() {
        return false;
    }
    for index in 0..numbers.len() {
        if !is(list.at(index), numbers[index]) {
            return false;
        }
    }
    true
}

/// Whether lists have these numbers.
fn have(lists: &List<List<Value>>, numbers: &[&[i64]]) -> bool {
    if lists.len() != numbers.len() {
        return false;
    }
    for index in 0..numbers.len() {
        if !has(lists.at(index), numbers[index]) {
            return false;
        }
    }
    true
}

#[test]
fn items_come_in_the_order_of_joints_and_rows(rt: HostRuntime) -> Result<(), Fail> {
    let circuit = merged(&rt, rt.alloc(), 2)?;
    let ends = ends_of(rt.alloc(), &circuit)?;
    match item_lists(rt.alloc(), &circuit, &ends)? {
        None => assert!(rt; false),
        Some(lists) => assert!(rt; have(&lists, ITEMS)),
    }
    Ok(())
}
