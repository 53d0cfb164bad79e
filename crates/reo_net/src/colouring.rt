//! What rows determine: their order, the items that they put at joints, whether they are those of
//! a colouring, and the moves.

mod colours;
mod fitting;
mod items;
mod moves;
mod order;
mod taken;
mod whole;

pub use colours::colour;
pub use fitting::fits;
pub use items::{fill, fill_with};
pub use moves::are_moves;
pub use order::compare;
pub use whole::is_colouring;
