//! What is used again from part to part of a log.
ghost use Rattle.std.specs.Prelude.{IfOk};
ghost use Rattle.reo_refute_live.specs.OpenBranch.{IsClosed};

use crate::proving::draft::Draft;
use crate::proving::outward::Outward;
use reo_refute_live::OpenBranch;
use reo_values::{Bytes, List, NoMemory, Value};
use std::alloc::Global;

/// What is used again from part to part of a log.
#[derive(Drop)]
pub(crate) struct Scratch {
    /// What is live in the open branches.
    pub(crate) live: OpenBranch,
    /// The sides that are still to be looked at.
    pub(crate) outward: Outward,
    /// The lines as they are found.
    pub(crate) draft: Draft,
    /// The text of all lines that were found.
    pub(crate) whole: Bytes,
    /// The text of those that stay.
    pub(crate) short: Bytes,
    /// Rows of a side.
    pub(crate) rows: Vec<u8>,
}

impl Scratch {
    /// For a circuit of so many sides, with these items at its joints. `NoMemory` is out of memory.
    pub(crate) fn new(
        alloc: Global,
        sides: usize,
        lists: &[List<Value>],
    ) -> Result<Scratch, NoMemory>
        ensures { IfOk result (λ scratch. IsClosed lists.now scratch.live) }
    {
        let live = OpenBranch::new(alloc, lists)?;
        let outward = Outward::new(alloc, sides, lists.len())?;
        let draft = Draft::new(alloc, lists.len())?;
        Ok(Scratch {
            live,
            outward,
            draft,
            whole: Bytes::new(alloc),
            short: Bytes::new(alloc),
            rows: Vec::new(alloc),
        })
    }
}
