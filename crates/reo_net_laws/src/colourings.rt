//! Colourings, closed sets and assignments.
ghost use Rattle.reo_net_laws.specs.JamRows.{JamIsColouring};
ghost use Rattle.reo_net_laws.specs.PartLaws.{OneColouringForRows, PartsAreColouring, MixIsColouring, EachPart};
ghost use Rattle.reo_net_laws.specs.Jams.{JamsWhole};
ghost use Rattle.reo_net_laws.specs.Reasons.{ReasonsAreGiven};

/// Jam at every side, with no item, is a colouring.
pub fn jam_is_colouring()
    ensures { JamIsColouring }
{}

/// Where the joints have an order, two colourings with the same rows have the same items.
pub fn one_colouring_for_rows()
    ensures { OneColouringForRows }
{}

/// Rows and items that are an assignment of a set of sides and of its outside are a colouring.
pub fn parts_are_colouring()
    ensures { PartsAreColouring }
{}

/// One assignment of a closed set and another of its outside mix to a colouring.
pub fn mix_is_colouring()
    ensures { MixIsColouring }
{}

/// Rows and items are a colouring exactly where they are an assignment of each part.
pub fn each_part()
    ensures { EachPart }
{}

/// A colouring jams a knot as a whole.
pub fn jams_whole()
    ensures { JamsWhole }
{}

/// A colouring gives each reason for no flow that it requires.
pub fn reasons_are_given()
    ensures { ReasonsAreGiven }
{}
