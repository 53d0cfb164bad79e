//! Which types a program may have.
ghost use Rattle.std.specs.Prelude.{◌↔◌, IsTrue};
ghost use Rattle.std.specs.List.{Contains};
ghost use Rattle.reo_values.specs.Names.{IsNameStart, IsNameByte, IsName};
ghost use Rattle.reo_values.specs.Valid.{AreDistinct, IsValid};

use crate::{Bytes, Kindred};

fn is_name_start(byte: u8) -> bool
    ensures { IsTrue result ↔ IsNameStart byte }
{
    (b'A' <= byte && byte <= b'Z') || byte == b'_' || (b'a' <= byte && byte <= b'z')
}

fn is_name_byte(byte: u8) -> bool
    ensures { IsTrue result ↔ IsNameByte byte }
{
    (b'0' <= byte && byte <= b'9') || is_name_start(byte)
}

/// Whether the bytes are a name: a letter or `_`, then letters, digits and `_`, all ASCII.
pub fn is_name(bytes: &[u8]) -> bool
    ensures { IsTrue result ↔ IsName bytes.now }
{
    match bytes.split_first() {
        Some((first, more)) => is_name_start(*first) && more.iter().all(|byte| is_name_byte(*byte)),
        None => false,
    }
}

// Whether the bytes stand among the names.
fn is_among(names: &[Bytes], bytes: &[u8]) -> bool
    ensures { IsTrue result ↔ Contains names.now bytes.now }
{
    names.iter().any(|name| name.as_slice() == bytes)
}

// Whether no name stands twice.
fn are_distinct(names: &[Bytes]) -> bool
    ensures { IsTrue result ↔ AreDistinct names.now }
{
    for (place, name) in names.iter().enumerate() {
        if is_among(&names[..place], name.as_slice()) {
            return false;
        }
    }
    true
}

/// Whether the type is valid: each list of names has at most 1,024 names, and each once, and
/// the bounds of numbers are in order. This takes no memory.
pub fn is_valid(kindred: &Kindred) -> bool
    ensures { IsTrue result ↔ IsValid kindred.now }
{
    match kindred {
        Kindred::Unit => true,
        Kindred::Bool => true,
        Kindred::Int(low, high) => *low <= *high,
        Kindred::Sym(names) => {
            let names = names.get().as_slice();
            names.len() <= 1024
                && names.iter().all(|name| is_name(name.as_slice()))
                && are_distinct(names)
        }
        Kindred::Text(_) => true,
        Kindred::Pair(twins) => {
            let twins = twins.get();
            is_valid(&twins.left) && is_valid(&twins.right)
        }
    }
}
