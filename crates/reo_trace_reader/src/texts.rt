//! Which texts are traces: traces, the faults of texts, the definitions of both, and their laws.
//! Each function is empty: its contract is a law.

mod fault;
mod laws;
mod trace;

pub use fault::{LineFault, TraceFault};
pub use laws::{
    one_line_answer, one_trace_answer, one_trace_of_text, one_wrong_line, trace_has_no_wrong_line,
};
pub use trace::{Trace, TraceLine};
