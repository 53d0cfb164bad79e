//! Walks along a key.
ghost use Rattle.reo_net_laws.specs.state_laws.Walks.{WalksAreFirst};

/// An assignment that has, at each place of the key of its set, the least number that is left is
/// the first assignment.
pub fn walks_are_first()
    ensures { WalksAreFirst }
{}
