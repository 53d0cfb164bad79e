//! What the items that can stand at joints are.
ghost use Rattle.reo_joint_values.specs.StandingLaws.{ItemsCanStand, PossibleItemsAreClosed, PossibleItemsAreLeast};

use reo_net_base::order_exists;

/// With the items that rows take in, those that they give can stand too.
pub fn possible_items_are_closed()
    ensures { PossibleItemsAreClosed }
{}

/// The items that can stand lie in any sets of which that holds.
pub fn possible_items_are_least()
    ensures { PossibleItemsAreLeast }
{}

/// Each item of an assignment of a closed set can stand at its joint.
pub fn items_can_stand()
    ensures { ItemsCanStand }
{
    order_exists();
}
