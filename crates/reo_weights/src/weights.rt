//! Laws of weights.
ghost use Rattle.reo_weights.specs.Laws.{LooplessPartsWeighOne, WeightExists, WeightIsOne, WeightIsSmall};

/// A closed set of sides has one weight, whatever numbers the items have.
pub fn weight_is_one()
    ensures { WeightIsOne }
{}

/// No weight is above the greatest.
pub fn weight_is_small()
    ensures { WeightIsSmall }
{}

/// Where the joints have an order, each set of sides has a weight.
pub fn weight_exists()
    ensures { WeightExists }
{}

/// A set of sides without a loop joint weighs one.
pub fn loopless_parts_weigh_one()
    ensures { LooplessPartsWeighOne }
{}
