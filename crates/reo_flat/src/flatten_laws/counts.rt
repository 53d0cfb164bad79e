//! How much a connector unfolds to.
ghost use Rattle.reo_flat.specs.flatten_laws.Counts.{CountsAreChannels};

/// A connector places as many channels as are counted, whatever the path and the arguments.
pub fn counts_are_channels()
    ensures { CountsAreChannels }
{}
