//! The lines of a log, read from bytes and written to them.

mod number;
mod reading;
mod value;
mod writing;

pub use reading::line;
pub use writing::put_line;
