//! Sets of values at joints, by tables.
use reo_joint_values::JointValue::{self, Flow, GG, GR, Jam, RG};
use reo_propagate::Sets;
use reo_values::{List, NoMemory};
use std::alloc::Global;

/// The values at each joint.
pub type Table = &'static [&'static [JointValue]];

/// All values of a joint where one item can stand.
pub const ALL: &[JointValue] = &[Flow(0), RG, GR, GG, Jam];

/// All values of a joint where no item can stand.
pub const WITHOUT_FLOW: &[JointValue] = &[RG, GR, GG, Jam];

fn list_of(alloc: Global, values: &[JointValue]) -> Result<List<JointValue>, NoMemory> {
    match Vec::from_slice(alloc, values) {
        Ok(vec) => Ok(List::from_vec(vec)),
        Err(_) => Err(NoMemory),
    }
}

/// The sets of these values.
pub fn sets_of(alloc: Global, table: Table) -> Result<Sets, NoMemory> {
    let mut values = List::new(alloc);
    for list in table {
        values.push(list_of(alloc, list)?)?;
    }
    Ok(Sets { values })
}

/// Whether the sets have these values, in this order.
pub fn have(sets: &Sets, table: Table) -> bool {
    if sets.values.len() != table.len() {
        return false;
    }
    for joint in 0..table.len() {
        if sets.values.at(joint).as_slice() != table[joint] {
            return false;
        }
    }
    true
}
