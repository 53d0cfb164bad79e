//! What is planned, and a part of it.
use reo_knots::Knots;
use reo_net_base::Primitive;
use reo_net_circuit::{Circuit, Ends};

/// What is planned: a circuit with its knots and the joint at each end, in the round of a number,
/// within a budget. Nothing of it changes while it is planned.
#[derive(Drop)]
pub struct Planning<'a, P: Primitive> {
    pub circuit: &'a Circuit<P>,
    pub knots: &'a Knots,
    pub ends: &'a Ends,
    pub turn: u64,
    pub budget: u64,
}

/// A part of what is planned, by the number of its knot. Nothing of it changes while it is planned.
#[derive(Drop)]
pub struct PartOf<'a, P: Primitive> {
    pub planning: &'a Planning<'a, P>,
    pub number: usize,
}
