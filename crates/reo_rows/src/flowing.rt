//! A row of a side and where it flows.
use crate::basis::Basis;
use crate::flags::RowFlags;
use reo_net_base::Primitive;
use reo_side_tables::Flow;

/// A row of a side that is looked at: what the search rests on, the values of the joints that are
/// left, the side and the row, and where the row takes in and gives with flow. Nothing of it
/// changes while the row is looked at.
#[derive(Drop)]
pub(crate) struct Flowing<'a, P: Primitive> {
    pub(crate) basis: &'a Basis<'a, P>,
    pub(crate) alive: &'a RowFlags,
    pub(crate) side: usize,
    pub(crate) row: usize,
    pub(crate) flow: &'a Flow,
}
