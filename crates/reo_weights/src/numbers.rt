//! Laws of the numbers of parts.
ghost use Rattle.reo_weights.specs.Laws.{NumbersAreOne};

/// A circuit has one numbering of its parts.
pub fn numbers_are_one()
    ensures { NumbersAreOne }
{}
