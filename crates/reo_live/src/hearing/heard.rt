//! How hearing a source ends.

/// How hearing a source has ended.
#[derive(Clone, Copy, Debug, PartialEq, Eq)]
pub enum Heard {
    /// The event `end` was judged, or the input ends.
    Ended,
    /// A round cannot be planned.
    Stopped,
    /// There are more than 2^32 bytes.
    Many,
    /// A take failed.
    Missed,
    /// The sink failed.
    Broken,
    /// Out of memory.
    NoMemory,
}
