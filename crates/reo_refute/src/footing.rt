//! What the parts of a log rest on.
use reo_net_base::Primitive;
use reo_net_circuit::Circuit;
use reo_refute_live::{Column, Judged};
use reo_refute_parts::{AllowedRows, SidePlace};
use reo_values::{List, Value};
use std::alloc::Global;

/// What the parts of a log rest on: the memory, a circuit, the round and the given rows, the places
/// of the key, the items that can stand at each joint, and the tables of the sides. Nothing of it
/// changes within the log.
#[derive(Drop)]
pub(crate) struct Footing<'a, P: Primitive> {
    pub(crate) alloc: Global,
    pub(crate) circuit: &'a Circuit<P>,
    pub(crate) turn: u64,
    pub(crate) given: &'a [u32],
    pub(crate) places: &'a [SidePlace],
    pub(crate) lists: &'a [List<Value>],
    pub(crate) tables: &'a List<List<Column>>,
}
