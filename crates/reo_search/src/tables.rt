//! The tables of a circuit.
use reo_net_circuit::Ends;
use reo_side_tables::Board;
use reo_values::List;

/// The tables of a circuit, made before its knots are searched: the board of each side, and the
/// joint at each end. Nothing of them changes while a knot is searched.
#[derive(Drop)]
pub struct Tables<'a> {
    pub boards: &'a List<Board>,
    pub ends: &'a Ends,
}
