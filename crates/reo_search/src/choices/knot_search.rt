//! What is searched.
use reo_net_base::Primitive;
use reo_rows::Basis;
use reo_walk::KeyPlace;
use std::alloc::Global;

/// What is searched: the knot that some sides are, with the places at which the first assignment
/// is least, in order, its loop joints, and the number of the round. The memory and what the
/// search rests on go with it. Nothing of it changes while the search goes on.
#[derive(Drop)]
pub(crate) struct KnotSearch<'a, P: Primitive> {
    pub(crate) alloc: Global,
    pub(crate) basis: &'a Basis<'a, P>,
    pub(crate) sides: &'a [usize],
    pub(crate) places: &'a [KeyPlace],
    pub(crate) loops: &'a [usize],
    pub(crate) turn: u64,
}
