//! The lines of a trace: what a round and an ending say, their texts, and the calls that write
//! them.
//!
//! A trace has one line for each round, with what flowed at the ports and the row of each side, and
//! then one line that says how the run ended.
#![tactic(auto)]

pub mod cells;
mod entries;
mod idle;
mod line;
mod text;
mod write;

pub use cells::{Cells, cells_stay};
pub use entries::{is_idle, line_of};
pub use idle::idle_means_no_flow;
pub use line::{Cell, Ending, Entry, RoundLine};
pub use text::{append_moves, append_number, ending_line_text, round_line_text};
pub use write::{WriteFault, write_ending, write_round};
