//! Laws of places, item lists and logs.
ghost use Rattle.reo_refute_base.specs.Logs.{RightLogsRefute};
ghost use Rattle.reo_refute_base.specs.Places.{PlacesDecide};
ghost use Rattle.reo_refute_base.specs.Steps.{BranchesAreRead, FrontsAreRead};
ghost use Rattle.reo_refute_base.specs.laws.Laws.{ItemsAreListed};
ghost use Rattle.reo_refute_base.specs.laws.Singles.{BranchOrSingle, LivePlacesAreTold, LogsExist, SupportIsTold};

use reo_joint_values::{assignments_are_choices, choices_are_assignments, items_can_stand};
use reo_net_base::order_has_no_cycle;
use reo_net_laws::rows_differ;

/// No colouring stands before the given rows exactly where at each live place no colouring has
/// allowed rows alone.
pub fn places_decide()
    ensures { PlacesDecide }
{}

/// The item lists have exactly the items that can stand at their joints.
pub fn items_are_listed()
    ensures { ItemsAreListed }
{}

/// Where a right log is, no colouring stands before the given rows.
pub fn right_logs_refute()
    ensures { RightLogsRefute }
{
    order_has_no_cycle();
    items_can_stand();
    assignments_are_choices();
}

/// Lines are a branch exactly where a reader who keeps the open branches in a list comes from it
/// alone to none.
pub fn branches_are_read()
    ensures { BranchesAreRead }
{}

/// Lines are a front of a branch exactly where a reader who keeps the open branches in a list can
/// read them.
pub fn fronts_are_read()
    ensures { FrontsAreRead }
{}

/// It can be told which places are live.
pub fn live_places_are_told()
    ensures { LivePlacesAreTold }
{}

/// It can be told which values have support, whatever is live.
pub fn support_is_told()
    ensures { SupportIsTold }
{}

/// Whatever is live, there is a branch, or one supported value at each joint.
pub fn branch_or_single()
    ensures { BranchOrSingle }
{}

/// Where no colouring stands before rows, there is a right log for them.
pub fn logs_exist()
    ensures { LogsExist }
{
    rows_differ();
    choices_are_assignments();
}
