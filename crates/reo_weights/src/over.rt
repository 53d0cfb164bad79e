//! Laws of rounds that cannot be planned within a budget.
ghost use Rattle.reo_weights.specs.Laws.{CauseIsOne, CausesAreSmall};
ghost use Rattle.reo_weights.specs.Laws.{OverIsDecided, WithinIsNotOver};

/// There is one cause and no other.
pub fn cause_is_one()
    ensures { CauseIsOne }
{}

/// No cause is there where each part is within the budget.
pub fn within_is_not_over()
    ensures { WithinIsNotOver }
{}

/// Where the joints have an order, either there is a cause or there is none.
pub fn over_is_decided()
    ensures { OverIsDecided }
{}

/// The numbers that a cause names are small.
pub fn causes_are_small()
    ensures { CausesAreSmall }
{}
