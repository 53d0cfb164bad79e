//! Of some joints those that flow.

mod copying;
mod flowing;

pub use copying::copy_over;
pub use flowing::put_flowing;
