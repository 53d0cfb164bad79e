//! Laws of what is looked up.
ghost use Rattle.reo_settling.specs.Lookups.{LookupsStay};

/// What is looked up stays right where a circuit changes at no primitive of a part that is still
/// settled, and nothing changes in what is done with items.
pub fn lookups_stay()
    ensures { LookupsStay }
{}
