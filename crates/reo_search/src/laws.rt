//! Laws of first assignments.
ghost use Rattle.reo_search.specs.Isolated.{FirstRowsAgree};

/// Where two circuits are alike on a closed set of sides, their first assignments have the same
/// sides and rows there.
pub fn first_rows_agree()
    ensures { FirstRowsAgree }
{}
