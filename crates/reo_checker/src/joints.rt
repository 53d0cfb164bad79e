//! Joints that do not match, looked for in many joints at once.
ghost use Rattle.std.specs.Prelude.{◌≡◌, ◌+◌, ◌<◌, ◌≤◌, MatchOption, length};
ghost use Rattle.reo_net_base.specs.Sides.{AreRowsOf};
ghost use Rattle.reo_net_base.specs.Net.{net_of};
ghost use Rattle.reo_net.specs.colouring.Filled.{AllMatch};
ghost use Rattle.reo_checker.specs.Faults.{IsJointFault};
ghost use Rattle.reo_checker.specs.Chunks.{MatchWithin, IsClashWithin, mark_byte};

use reo_lanes::joints_match;
use reo_net_base::{Mark, Primitive};
use reo_net_circuit::Circuit;

/// How many joints are judged at once.
const AT_ONCE: usize = 256;

/// A mark as the byte that stands for it.
fn byte_of(mark: Mark) -> u8
    ensures { result ≡ mark_byte mark }
{
    match mark {
        Mark::F => 1,
        Mark::G => 2,
        Mark::R => 4,
        Mark::J => 8,
    }
}

/// The least of so many joints from a place on that does not match.
fn clash_within<P: Primitive>(
    circuit: &Circuit<P>,
    rows: &[u32],
    from: usize,
    count: usize,
) -> Option<usize>
    requires rows { AreRowsOf (net_of P.behaviour circuit.now) rows.now }
    requires few { count ≤ AT_ONCE }
    requires in_range { from + count ≤ length circuit.now.joints }
    ensures { let net = net_of P.behaviour circuit.now in
        MatchOption result (MatchWithin net rows.now from (from + count))
        (IsClashWithin net rows.now from (from + count)) }
{
    circuit.known();
    let mut givers = [0; AT_ONCE];
    let mut takers = [0; AT_ONCE];
    for offset in 0..count {
        let joint = circuit.joint(from + offset);
        givers[offset] = byte_of(circuit.mark_at(rows, joint.giver));
        takers[offset] = byte_of(circuit.mark_at(rows, joint.taker));
    }
    match joints_match(&givers[..count], &takers[..count]) {
        Some(offset) => Some(from + offset),
        None => None,
    }
}

/// The least joint that does not match.
pub(crate) fn joint_fault<P: Primitive>(circuit: &Circuit<P>, rows: &[u32]) -> Option<usize>
    requires { AreRowsOf (net_of P.behaviour circuit.now) rows.now }
    ensures { let net = net_of P.behaviour circuit.now in
        MatchOption result (AllMatch net rows.now) (IsJointFault net rows.now) }
{
    let joints = circuit.joint_count();
    let mut from = 0;
    while from < joints {
        let count = (joints - from).min(AT_ONCE);
        if let Some(joint) = clash_within(circuit, rows, from, count) {
            return Some(joint);
        }
        from += count;
    }
    None
}
