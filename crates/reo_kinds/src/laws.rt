//! A law of the kinds.
ghost use Rattle.reo_kinds.specs.RuleOfClasses.{ClassesByRule};

/// The class of a row is the place of its flow set, the ends that flow, among the distinct flow
/// sets of its side in row order, and the jam row's is how many there are. A merger alone has
/// other classes: its inputs take turns.
pub fn classes_by_rule()
    ensures { ClassesByRule }
{}
