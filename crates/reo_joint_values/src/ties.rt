//! Assignments by values, and by rows and items.
ghost use Rattle.reo_joint_values.specs.Ties.{ChoicesAreAssignments, AssignmentsAreChoices, FirstByValues};

/// Where no joint leads out of a set of sides and the joints have an order, each assignment by
/// values is one by rows and items.
pub fn choices_are_assignments()
    ensures { ChoicesAreAssignments }
{}

/// Where no joint leads out of a set of sides, each assignment by rows and items whose items have
/// numbers is one by values.
pub fn assignments_are_choices()
    ensures { AssignmentsAreChoices }
{}

/// Where no joint leads out of a set of sides, the joints have an order and each item that stands
/// in an assignment has a number, the first assignment by values is the first by rows and items.
pub fn first_by_values()
    ensures { FirstByValues }
{}
