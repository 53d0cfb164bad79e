//! What a search rests on.
use reo_net_base::Primitive;
use reo_net_circuit::{Circuit, Ends};
use reo_side_tables::Board;
use reo_values::{List, Value};

/// What a search rests on: a circuit, the tables of its sides, the joint at each end, and the items
/// that can stand at each joint. Nothing of it changes while the search goes on.
#[derive(Drop)]
pub struct Basis<'a, P: Primitive> {
    pub circuit: &'a Circuit<P>,
    pub boards: &'a List<Board>,
    pub ends: &'a Ends,
    pub items: &'a [List<Value>],
}
