//! Texts that are put together.
use reo_values::{Bytes, NoMemory};
use std::alloc::AllocError;

/// Adds a text that was made, if memory did not run out.
pub fn append_made(text: &mut Bytes, made: Result<String, AllocError>) -> Result<(), NoMemory> {
    match made {
        Ok(more) => text.append(more.as_bytes()),
        Err(_) => Err(NoMemory),
    }
}
