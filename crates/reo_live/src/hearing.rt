//! Hearing all that a source gives, piece by piece.

mod heard;
mod hearing;
mod taking;

pub use heard::Heard;
pub use taking::hear;
