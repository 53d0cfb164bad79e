//! What colourings are compared by.
ghost use Rattle.reo_net_laws.specs.Keys.{ClassesAlwaysLead};
ghost use Rattle.reo_net_laws.specs.Sublists.{PartKeys};
ghost use Rattle.reo_net_laws.specs.Differences.{FirstDifferenceDecides};
ghost use Rattle.reo_net_laws.specs.Leading.{LeadingComeFirst, AllSidesComeNext};

/// Whichever sides lead, the classes decide.
pub fn classes_always_lead()
    ensures { ClassesAlwaysLead }
{}

/// The key of the rows of a set is the key of the whole at the places of its sides.
pub fn part_keys()
    ensures { PartKeys }
{}

/// One list of rows stands before another exactly where the first difference of their keys is
/// smaller.
pub fn first_difference_decides()
    ensures { FirstDifferenceDecides }
{}

/// The first leading side at which the classes of two lists of rows differ decides, whatever other
/// sides say.
pub fn leading_come_first()
    ensures { LeadingComeFirst }
{}

/// Where the classes of no leading side differ, the classes of all sides decide, and then the rows.
pub fn all_sides_come_next()
    ensures { AllSidesComeNext }
{}
