//! How many branches a merger or a replicator has.
ghost use Rattle.std.specs.Prelude.{◌≡◌, ◌≤◌};

/// How many inputs a merger has, or outputs a replicator: 2 to 8,192.
#[derive(Clone, Copy, Debug)]
pub struct Branches {
    pub count: usize,
    pub ghost some: { 2 ≤ count },
    pub ghost few: { count ≤ 8192 },
}

impl Branches {
    /// So many branches.
    pub fn new(count: usize) -> Self
        requires some { 2 ≤ count }
        requires few { count ≤ 8192 }
        ensures { result.count ≡ count }
    {
        Branches { count }
    }
}
