//! Weights of parts that are alike.
ghost use Rattle.reo_weights.specs.still.Weighing.{AlikePartsWeighAlike};

/// A closed set of sides that is within a budget is within it in each circuit that is alike on the
/// set.
pub fn alike_parts_weigh_alike()
    ensures { AlikePartsWeighAlike }
{}
