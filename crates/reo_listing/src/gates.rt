//! The ports of open circuits, as mathematics. Each function is empty: its contract is a law.

mod laws;

pub use laws::open_ports_are_gates;
