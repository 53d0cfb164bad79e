//! Ends at names.
ghost use Rattle.std.specs.Prelude.{◌≡◌, [], ◌∷◌, ◌++◌, OnOk, List};
ghost use Rattle.reo_rules.specs.Touches.{Touch, touch, is_touched};
ghost use Rattle.reo_rules.specs.Channels.{is_drain};

use reo_rules::Names;
use reo_trees::Channel;
use reo_values::NoMemory;
use std::alloc::Global;

/// Ends at names: which names have a source end, and which have a sink end.
#[derive(Drop)]
pub(crate) struct EndsAtNames {
    sources: Names,
    sinks: Names,
}

impl EndsAtNames {
    ghost use Rattle.reo_rules_names.specs.EndsAtNames.{AreEnds};

    /// No ends.
    pub(crate) fn new(alloc: Global) -> Self
        ensures { AreEnds [] result }
    {
        EndsAtNames {
            sources: Names::new(alloc),
            sinks: Names::new(alloc),
        }
    }

    /// Whether there is an end of this way at a name.
    pub(crate) fn has(&self, name: &[u8], is_source: bool) -> bool
        ensures { (touches : List Touch) → AreEnds touches self.now
            → result ≡ is_touched touches name.now is_source }
    {
        if is_source {
            self.sources.has(name)
        } else {
            self.sinks.has(name)
        }
    }

    /// One more end. `NoMemory` is out of memory.
    pub(crate) fn note(
        &mut self,
        alloc: Global,
        name: &[u8],
        is_source: bool,
    ) -> Result<(), NoMemory>
        ensures { OnOk result ((touches : List Touch) → AreEnds touches self.old
            → AreEnds (touches ++ touch name.now is_source ∷ []) self.new) }
    {
        if is_source {
            self.sources.note(alloc, name)?;
        } else {
            self.sinks.note(alloc, name)?;
        }
        Ok(())
    }
}

/// Whether both ends of a channel are source ends.
pub(crate) fn is_drain(channel: &Channel) -> bool
    ensures { result ≡ is_drain channel.now }
{
    matches!(channel, Channel::SyncDrain | Channel::AsyncDrain)
}
