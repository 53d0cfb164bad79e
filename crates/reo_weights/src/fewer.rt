//! Laws of circuits with fewer rows.
ghost use Rattle.reo_weights.specs.Fewer.{FewerRowsStayWithin, FewerRowsWeighNoMore};

/// A closed set with fewer rows weighs no more, and is not wide where it was not.
pub fn fewer_rows_weigh_no_more()
    ensures { FewerRowsWeighNoMore }
{}

/// A closed set that is within a budget is within it with fewer rows.
pub fn fewer_rows_stay_within()
    ensures { FewerRowsStayWithin }
{}
