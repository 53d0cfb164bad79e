//! A side at rest, and a joint there that lost values.
use reo_net_base::Primitive;
use reo_net_circuit::Circuit;
use reo_side_tables::Marks;

/// A side at rest, a joint there that lost values, and the marks of the values that are left there.
/// Nothing of it changes while its rows are looked at.
#[derive(Drop)]
pub(crate) struct Resting<'a, P: Primitive> {
    pub(crate) circuit: &'a Circuit<P>,
    pub(crate) side: usize,
    pub(crate) joint: usize,
    pub(crate) marks: Marks,
}
