//! What stops a command before its own work.
use crate::refusal::Refusal;
use crate::role::Role;

/// What stops a command before its own work.
#[derive(Drop)]
pub enum Stop {
    /// A file cannot be had. Its name was noted.
    Missed(Role),
    /// A file has more bytes than its limit.
    TooLong(Role),
    /// The text of a file is refused.
    Refused(Role, Refusal),
    /// Out of memory.
    NoMemory,
}
