//! What runs ask for: the ports of flat circuits, and the actions of scripts that were read. Each
//! function is empty: its contract is a law.

mod ports;
mod scripts;

pub use ports::flat_ports_fit;
pub use scripts::scripts_fit;
