//! Parts in which nothing flows.
ghost use Rattle.reo_weights.specs.still.Still.{StillPartsStayFirst, StillPartsHaveNoItems, PartsWithoutItemsAreStill};

/// The first assignment of a set of sides in which nothing flows is the first in every round.
pub fn still_parts_stay_first()
    ensures { StillPartsStayFirst }
{}

/// Where nothing flows in a set of sides, no joint of the set has an item.
pub fn still_parts_have_no_items()
    ensures { StillPartsHaveNoItems }
{}

/// Where no joint of a closed set of sides has an item, nothing flows in the set.
pub fn parts_without_items_are_still()
    ensures { PartsWithoutItemsAreStill }
{}
