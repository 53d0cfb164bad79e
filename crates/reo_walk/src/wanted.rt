//! Which first assignment is wanted.
use reo_knots::Knots;
use reo_net_base::Primitive;
use reo_net_circuit::Circuit;
use reo_reach::Supply;

/// Which first assignment is wanted: that of one knot of a circuit, in the round of a number, with
/// the items that can stand at each joint. Nothing of it changes while it is searched for.
#[derive(Drop)]
pub struct Wanted<'a, P: Primitive> {
    pub circuit: &'a Circuit<P>,
    pub knots: &'a Knots,
    pub supply: &'a Supply,
    pub knot: usize,
    pub turn: u64,
}
