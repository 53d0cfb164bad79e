//! First assignments of parts, put together.
ghost use Rattle.reo_weights.specs.still.Joining.{PartsMakeFirst};

/// Rows that are at each part as its first assignment are those of a first colouring, with the
/// items of the parts.
pub fn parts_make_first()
    ensures { PartsMakeFirst }
{}
