//! Sides at a wide joint.
ghost use Rattle.std.specs.Prelude.{◌≡◌, ◌↔◌, ◌<◌, ℕ, true, IsTrue, length, slice_index};
ghost use Rattle.reo_net_base.specs.Net.{net_of, all_sides};
ghost use Rattle.reo_net_laws.specs.Parts.{IsClosed};
ghost use Rattle.reo_reach.specs.Supplied.{is_wide};
ghost use Rattle.reo_joint_values.specs.Many.{IsJointIn};
ghost use Rattle.reo_side_tables.specs.Boards.{AreBoards};
ghost use Rattle.reo_propagate.specs.Queues.{among};

use reo_net_base::Primitive;
use reo_net_circuit::Circuit;
use reo_reach::Supply;
use reo_side_tables::Board;
use reo_values::List;

/// Whether one of some joints is wide.
fn some_wide(supply: &Supply, joints: &[usize]) -> bool
    requires { (m : ℕ) → m < length joints.now
        → slice_index joints.now m < length supply.now.items }
    ensures { IsTrue result ↔ ((m : ℕ) × (m < length joints.now)
        × (is_wide supply.now (slice_index joints.now m) ≡ true)) }
{
    for joint in joints {
        if supply.is_wide(*joint) {
            return true;
        }
    }
    false
}

/// Whether some joint of these sides is wide. This takes no memory.
pub(crate) fn has_wide<P: Primitive>(
    circuit: &Circuit<P>,
    boards: &List<Board>,
    supply: &Supply,
    sides: &[usize],
) -> bool
    requires boards { AreBoards (net_of P.behaviour circuit.now) boards.now }
    requires items { length supply.now.items ≡ length circuit.now.joints }
    requires closed { IsClosed (net_of P.behaviour circuit.now) (among sides.now) }
    requires sides { let net = net_of P.behaviour circuit.now in
        (s : ℕ) → among sides.now s ≡ true → s < length (all_sides net.primitives) }
    ensures { let net = net_of P.behaviour circuit.now in
        IsTrue result ↔ ((j : ℕ) × IsJointIn net (among sides.now) j
        × (is_wide supply.now j ≡ true)) }
{
    let _ = circuit;
    for side in sides {
        if some_wide(supply, boards.at(*side).joints.as_slice()) {
            return true;
        }
    }
    false
}
