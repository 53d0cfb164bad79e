//! A row at an end that gives.
use crate::supply::Supply;
use reo_net_base::{End, Primitive};
use reo_net_circuit::{Circuit, Ends};

/// A row at an end that gives, in a circuit with the joint at each end and what is known of the
/// items that can stand at each joint. Nothing of it changes while its items are added.
#[derive(Drop)]
pub(crate) struct Giving<'a, P: Primitive> {
    pub(crate) circuit: &'a Circuit<P>,
    pub(crate) ends: &'a Ends,
    pub(crate) supply: &'a Supply,
    pub(crate) giver: End,
    pub(crate) row: usize,
}
