//! Names with a place or a number.
ghost use Rattle.std.specs.Prelude.{◌≡◌, IfOk};
ghost use Rattle.reo_expand.specs.base.Expansion.{placed_name as placed, numbered_name as numbered};

use reo_values::{Bytes, NoMemory, append_number};
use std::alloc::Global;

/// `name.place`. `NoMemory` means out of memory.
pub fn placed_name(alloc: Global, name: &[u8], place: i64) -> Result<Bytes, NoMemory>
    ensures { IfOk result (λ b. b ≡ placed name.now place) }
{
    let mut out = Bytes::from_slice(alloc, name)?;
    out.append(b".")?;
    append_number(alloc, &mut out, place)?;
    Ok(out)
}

/// `name<number>`. `NoMemory` means out of memory.
pub fn numbered_name(alloc: Global, name: &[u8], number: i64) -> Result<Bytes, NoMemory>
    ensures { IfOk result (λ b. b ≡ numbered name.now number) }
{
    let mut out = Bytes::from_slice(alloc, name)?;
    out.append(b"<")?;
    append_number(alloc, &mut out, number)?;
    out.append(b">")?;
    Ok(out)
}
