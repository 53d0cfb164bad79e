//! Laws of the items that can stand at joints.
ghost use Rattle.reo_joint_values.specs.InOrder.{PartsAreInOrder};
ghost use Rattle.reo_reach.specs.Stays.{ReachedStay};
ghost use Rattle.reo_reach.specs.Width.{ManyAreNotClear, PartsAreTold};

/// The joints of a closed set, in an order of all joints, can be gone through by themselves.
pub fn parts_are_in_order()
    ensures { PartsAreInOrder }
{}

/// A joint where more than 256 items can stand is not clear.
pub fn many_are_not_clear()
    ensures { ManyAreNotClear }
{}

/// Once the joints of a closed set are reached, some of them is wide exactly where more than 256
/// items can stand at some of them; and if none is wide, their lists are the items that can stand.
pub fn parts_are_told()
    ensures { PartsAreTold }
{}

/// What is reached in a closed set stays reached where the circuit and the supply change elsewhere.
pub fn reached_stay()
    ensures { ReachedStay }
{}
