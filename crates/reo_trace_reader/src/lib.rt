//! Reading traces from their texts. It is the door of traces too: what they are, and the calls that
//! write them, are given on.
#![tactic(auto)]

mod cells;
mod given;
mod item;
mod lines;
mod moves;
mod number;
mod ports;
mod reading;
pub mod texts;
mod trace_lines;
mod trace_text;

pub use reading::{read_line, read_trace};
pub use reo_trace::{
    Cell, Ending, Entry, RoundLine, WriteFault, line_of, write_ending, write_round,
};
pub use texts::{
    LineFault, Trace, TraceFault, TraceLine, one_line_answer, one_trace_answer, one_trace_of_text,
    one_wrong_line, trace_has_no_wrong_line,
};
pub use trace_lines::TraceLines;
pub use trace_text::TraceText;
