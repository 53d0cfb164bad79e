//! Support of values by rows alone, as mathematics. The function is empty: its contract is a law.

mod laws;

pub use laws::support_is_by_rows;
