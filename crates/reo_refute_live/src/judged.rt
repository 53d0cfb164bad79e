//! What is judged at a place of a key.
use crate::support::Column;
use reo_net_base::Primitive;
use reo_net_circuit::Circuit;
use reo_refute_parts::AllowedRows;
use reo_values::{List, Value};

/// What the part of a log at a place of the key rests on: a circuit, the round and the given rows,
/// the number of the place and the rows that are allowed there, the items that can stand at each
/// joint, and the tables of the sides. Nothing of it changes within the part.
#[derive(Drop)]
pub struct Judged<'a, P: Primitive> {
    pub circuit: &'a Circuit<P>,
    pub turn: u64,
    pub given: &'a [u32],
    pub number: usize,
    pub allowed: &'a AllowedRows,
    pub lists: &'a [List<Value>],
    pub tables: &'a List<List<Column>>,
}
