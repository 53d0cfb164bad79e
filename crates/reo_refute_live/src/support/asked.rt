//! What is asked of a side.
use crate::support::columns::Column;
use crate::support::live::LiveAt;
use reo_joint_values::JointValue;
use reo_net_base::Primitive;
use reo_net_circuit::Circuit;
use reo_values::{List, Value};

/// What is asked of a side: whether a value has support there. At the joint that is held the value
/// alone is live, and at the other joints what is live there.
#[derive(Drop)]
pub(crate) struct Asked<'a, P: Primitive> {
    pub(crate) circuit: &'a Circuit<P>,
    pub(crate) lists: &'a [List<Value>],
    pub(crate) columns: &'a [Column],
    pub(crate) live: &'a [LiveAt],
    pub(crate) held: usize,
    pub(crate) value: JointValue,
    pub(crate) side: usize,
}
