//! Whether a value at a joint has support at a side, by columns of marks.

mod asked;
mod columns;
mod flows;
mod live;
mod marks;
mod support;
mod tables;

pub use columns::Column;
pub use live::{LiveAt, is_flow_of};
pub use support::has_support;
pub use tables::tables_of;
