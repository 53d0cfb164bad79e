//! Texts that are given to C.
ghost use Rattle.std.specs.Prelude.{◌≡◌, length};
ghost use Rattle.reo_handles.specs.Texts.{laid};

/// Lays a text into a room, as far as it fits, and answers how long the text is.
pub(crate) fn lay(room: &mut [u8], text: &[u8]) -> usize
    ensures count { result ≡ length text.now }
    ensures laid { room.new ≡ laid text.now room.old }
{
    let count = text.len().min(room.len());
    room[..count].copy_from_slice(&text[..count]);
    text.len()
}
