//! One round of a proof text, judged and made on its circuit.

mod rounds;
mod stop;

pub use rounds::prove_round;
pub use stop::RoundStop;
