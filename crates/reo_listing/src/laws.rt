//! Laws of gates.

mod laws;

pub use laws::knots_stay_with_shape;
