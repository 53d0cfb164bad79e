//! What is searched.
use reo_knots::Knots;
use reo_net_base::{Form, Primitive};
use reo_net_circuit::Circuit;
use reo_values::List;

/// What the search of a part goes by: a circuit and its parts, the number of the part, that of the
/// round, where the marks of ends stand, and the forms that were noted of the sides of the part.
/// Nothing of it changes within the search.
#[derive(Drop)]
pub(crate) struct Searched<'a, P: Primitive> {
    pub(crate) circuit: &'a Circuit<P>,
    pub(crate) knots: &'a Knots,
    pub(crate) part: usize,
    pub(crate) turn: u64,
    pub(crate) spots: &'a List<List<usize>>,
    pub(crate) forms: &'a List<Form>,
}
