//! What rows say of the ends of joints.
ghost use Rattle.reo_net_laws.specs.Ends.{EndsAreJoined, SourceIsTaken, RowsDiffer, ClassesDiffer};

/// Each end that gives is the giver of one joint, and each end that takes in is the taker of one
/// joint.
pub fn ends_are_joined()
    ensures { EndsAreJoined }
{}

/// Where an end decides what a row gives at a joint with flow, that end is the taker of exactly
/// one joint, which flows.
pub fn source_is_taken()
    ensures { SourceIsTaken }
{}

/// Rows of a side are one exactly where they have the same marks at each joint.
pub fn rows_differ()
    ensures { RowsDiffer }
{}

/// Rows of a side are of one class exactly where they flow at the same joints and jam at the same
/// joints.
pub fn classes_differ()
    ensures { ClassesDiffer }
{}
