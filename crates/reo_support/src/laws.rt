//! Forest support.
ghost use Rattle.reo_support.specs.ForestSupport.{ForestSupport};
ghost use Rattle.reo_support.specs.Laws.{RowsStand, ValuesStand, FullSetsStand};

/// On a knot with one value at each loop joint, each row that works with values of a supported
/// family stands in an assignment.
pub fn rows_stand()
    ensures { RowsStand }
{}

/// On a knot with one value at each loop joint, each value of a supported family stands in an
/// assignment.
pub fn values_stand()
    ensures { ValuesStand }
{}

/// On a knot with one value at each loop joint, a supported family with some value at each joint
/// has an assignment.
pub fn full_sets_stand()
    ensures { FullSetsStand }
{}

/// On a knot with at most one value at each loop joint, where the greatest supported family has
/// some value at each joint, there is an assignment, and each value of the family stands in one.
pub fn forest_support()
    ensures { ForestSupport }
{}
