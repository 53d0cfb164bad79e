//! What an object gave or took, known to proofs alone: no memory is taken for it, and its functions
//! do nothing when they run.
ghost use Rattle.std.specs.Prelude.{◌≡◌, ℕ, List, [], ◌∷◌, ◌++◌};
ghost use Rattle.std.specs.Borrow.{ftrue};

use std::marker::Model;

/// Files that were given, each with its name, one after another.
#[derive(Drop)]
pub struct GivenFiles {
    ghost files: { List (List ℕ × List ℕ) },
}

impl Model for GivenFiles {
    ghost also_owns = { λ _. ftrue };
}

impl GivenFiles {
    ghost use Rattle.reo_io.specs.Given.{files_given};

    /// No file yet.
    pub fn new() -> GivenFiles
        ensures { files_given result ≡ [] }
    {
        GivenFiles::told(&())
    }

    /// These files, and then one of this name and these bytes.
    #[inline(always)]
    pub fn then(&self, name: &[u8], bytes: &[u8]) -> GivenFiles
        ensures { files_given result ≡ files_given self.now ++ (name.now, bytes.now) ∷ [] }
    {
        GivenFiles::told(&(self, name, bytes))
    }

    /// The files that the caller's proof tells, out of what is shown or out of nothing.
    #[inline(always)]
    fn told<T>(_shown: &T) -> GivenFiles
        ghost files: { List (List ℕ × List ℕ) }
        ensures { files_given result ≡ files }
    {
        GivenFiles {}
    }
}

/// Names that were noted, one after another.
#[derive(Drop)]
pub struct GivenNames {
    names: GivenFiles,
}

impl GivenNames {
    ghost use Rattle.reo_io.specs.Given.{names_given};

    /// No name yet.
    pub fn new() -> GivenNames
        ensures { names_given result ≡ [] }
    {
        GivenNames {
            names: GivenFiles::new(),
        }
    }

    /// These names, and then this one.
    #[inline(always)]
    pub fn then(&self, name: &[u8]) -> GivenNames
        ensures { names_given result ≡ names_given self.now ++ name.now ∷ [] }
    {
        GivenNames {
            names: self.names.then(name, b""),
        }
    }
}

/// Bytes that were given or taken, one after another.
#[derive(Drop)]
pub struct GivenBytes {
    pieces: GivenFiles,
}

impl GivenBytes {
    ghost use Rattle.reo_io.specs.Given.{bytes_given, empties_after, empties_given};

    /// No byte yet.
    pub fn new() -> GivenBytes
        ensures bytes { bytes_given result ≡ [] }
        ensures empties { empties_given result ≡ 0 }
    {
        GivenBytes {
            pieces: GivenFiles::new(),
        }
    }

    /// These bytes, and then those of the piece.
    #[inline(always)]
    pub fn then(&self, piece: &[u8]) -> GivenBytes
        ensures bytes { bytes_given result ≡ bytes_given self.now ++ piece.now }
        ensures empties { empties_given result ≡ empties_after
            (empties_given self.now) piece.now }
    {
        GivenBytes {
            pieces: self.pieces.then(b"", piece),
        }
    }
}
