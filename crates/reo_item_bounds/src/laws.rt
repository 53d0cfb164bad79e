//! Laws of bounds. Each function is empty: its contract is a law.
ghost use Rattle.reo_item_bounds.specs.Laws.{BoundedPartsAreWithin, BoundsStay, KeptBoundsStay};

/// Bounds of a set are those of each circuit whose sides have the same tables there.
pub fn bounds_stay()
    ensures { BoundsStay }
{}

/// Bounds that are kept for a circuit are right for each circuit of the same shape, whatever its
/// state.
pub fn kept_bounds_stay()
    ensures { KeptBoundsStay }
{}

/// A closed set with bounds is within each budget that allows so many choices.
pub fn bounded_parts_stay_within()
    ensures { BoundedPartsAreWithin }
{}
