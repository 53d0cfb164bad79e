//! The first colouring and the first assignment of a closed set.
ghost use Rattle.reo_net_laws.specs.FirstLaws.{FirstExists, FirstIsOne, FirstIsOneInside, FirstInside, FirstByParts, FirstFlows, NoneFlowsMore, FirstJamsForCause, PartJamsForCause, KnotJamsExactly};
ghost use Rattle.reo_net_laws.specs.Alike.{IsIsolated, FirstsAgree};

/// Where the joints have an order, there is a first colouring.
pub fn first_exists()
    ensures { FirstExists }
{}

/// Where the joints have an order, two first colourings have the same rows and the same items.
pub fn first_is_one()
    ensures { FirstIsOne }
{}

/// Where the joints have an order, two first assignments of a closed set have the same rows and
/// items there.
pub fn first_is_one_inside()
    ensures { FirstIsOneInside }
{}

/// On each closed set the first colouring is the first assignment.
pub fn first_inside()
    ensures { FirstInside }
{}

/// A colouring that is least on each part is the first.
pub fn first_by_parts()
    ensures { FirstByParts }
{}

/// If any colouring flows, the first flows.
pub fn first_flows()
    ensures { FirstFlows }
{}

/// No colouring flows wherever the first flows and at some other end too.
pub fn none_flows_more()
    ensures { NoneFlowsMore }
{}

/// The first colouring jams no side of a closed set that has a three-colouring.
pub fn first_jams_for_cause()
    ensures { FirstJamsForCause }
{}

/// The first assignment of a closed set that has a three-colouring jams none of its sides.
pub fn part_jams_for_cause()
    ensures { PartJamsForCause }
{}

/// The first assignment of a knot jams its sides exactly where the knot has no three-colouring.
pub fn knot_jams_exactly()
    ensures { KnotJamsExactly }
{}

/// What is first on a closed set is also first there in a circuit that is alike on the set.
pub fn is_isolated()
    ensures { IsIsolated }
{}

/// The first colourings of two circuits that are alike on a closed set have the same rows and
/// items there.
pub fn firsts_agree()
    ensures { FirstsAgree }
{}
