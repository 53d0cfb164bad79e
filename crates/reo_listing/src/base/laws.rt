//! Laws of open circuits.
ghost use Rattle.reo_listing.specs.base.Laws.{OpenPartsAreNarrow};

/// No set of sides of an open circuit is wide: unit alone can stand at its joints.
pub fn open_parts_are_narrow()
    ensures { OpenPartsAreNarrow }
{}
