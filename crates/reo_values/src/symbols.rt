//! The names of a type.
ghost use Rattle.std.specs.Prelude.{◌≡◌, IfOk, length, option_copied, slice_get, bytes_eq};
ghost use Rattle.std.specs.Cmp.Lexicographic.{pointwise};
ghost use Rattle.std.specs.List.{flat_map};
ghost use Rattle.reo_values.specs.Quoted.{quoted};

use crate::append::append_quoted;
use crate::{Bytes, List, NoMemory};
use std::alloc::Global;
use std::marker::Model;

/// The names of a type in their order, which contracts see as a plain list. One text of them all
/// stands beside them, so that two lists of names are compared as two texts are.
#[derive(Drop)]
pub struct Symbols {
    names: List<Bytes>,
    text: Bytes,
}

impl Model for Symbols {
    ghost use Rattle.std.specs.Prelude.{◌≡◌, List, ℕ};
    ghost use Rattle.std.specs.List.{flat_map};
    ghost use Rattle.reo_values.specs.Quoted.{quoted};

    ghost Value = { List (List ℕ) };

    ghost view = { λ s. s.names };

    ghost invariant = { λ s. s.text ≡ flat_map quoted s.names };
}

// The names, each in quotes, one behind the other.
fn text_of_names(alloc: Global, names: &[Bytes]) -> Result<Bytes, NoMemory>
    ensures { IfOk result (λ text. text ≡ flat_map quoted names.now) }
{
    let mut text = Bytes::new(alloc);
    for name in names {
        append_quoted(&mut text, name.as_slice())?;
    }
    Ok(text)
}

impl Symbols {
    /// These names. `NoMemory` means out of memory.
    pub fn new(alloc: Global, names: List<Bytes>) -> Result<Self, NoMemory>
        ensures { IfOk result (λ made. made ≡ names) }
    {
        let text = text_of_names(alloc, names.as_slice())?;
        Ok(Symbols { names, text })
    }

    /// How many names there are.
    pub fn len(&self) -> usize
        ensures { result ≡ length self.now }
    {
        self.names.len()
    }

    /// The name at a place, from 0.
    pub fn get(&self, place: usize) -> Option<&Bytes>
        ensures { option_copied result ≡ slice_get self.now place }
    {
        self.names.get(place)
    }

    /// The names as a slice.
    pub fn as_slice(&self) -> &[Bytes]
        ensures { result.now ≡ self.now }
    {
        self.names.as_slice()
    }

    /// Whether these are the same names in the same order. This takes no memory.
    pub fn same(&self, other: &Symbols) -> bool
        ensures { result ≡ pointwise bytes_eq self.now other.now }
    {
        self.text.as_slice() == other.text.as_slice()
    }
}
