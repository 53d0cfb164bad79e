//! What the joints of ends say.
ghost use Rattle.reo_net_circuit.specs.found_ends.Laws.{EndsFindJoints, EndsStay};

/// The joint of an end that gives has it as its giver, that of an end that takes in has it as its
/// taker, and each joint is that of its two ends.
pub fn ends_find_joints()
    ensures { EndsFindJoints }
{}

/// The joints of the ends of a circuit are those of each circuit of the same shape.
pub fn ends_stay()
    ensures { EndsStay }
{}
