//! Laws of bounds on how many items can stand.
ghost use Rattle.reo_weights.specs.Bounds.{BoundedPartsAreWithin, FewItemsStand, WeightIsAtMost};

/// At each joint of a closed set no more items can stand than the bound says.
pub fn few_items_stand()
    ensures { FewItemsStand }
{}

/// A closed set weighs no more than the bounds of its loop joints allow.
pub fn weight_is_at_most()
    ensures { WeightIsAtMost }
{}

/// A closed set is within a budget in which its bounds are.
pub fn bounded_parts_are_within()
    ensures { BoundedPartsAreWithin }
{}
