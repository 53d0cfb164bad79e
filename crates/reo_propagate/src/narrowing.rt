//! Narrowing: what is not used goes, until each side is at rest.
ghost use Rattle.std.specs.Prelude.{◌≡◌, ◌⊎◌, ◌<◌, ◌≤◌, ◌+◌, ℕ, true, [], OnOk, length};
ghost use Rattle.reo_net_base.specs.Net.{net_of, all_sides};
ghost use Rattle.reo_net_laws.specs.Parts.{IsClosed};
ghost use Rattle.reo_joint_values.specs.Values.{Family, AtSide};
ghost use Rattle.reo_side_tables.specs.Marks.{IsJointOf};
ghost use Rattle.reo_rows.specs.RowFlags.{count_set};
ghost use Rattle.reo_rows.specs.Rows.{AreTables, IsSifted};
ghost use Rattle.reo_rows.specs.Basis.{IsReadyOn};
ghost use Rattle.reo_rows.specs.Sets.{names_of};
ghost use Rattle.reo_propagate.specs.Queues.{among};
ghost use Rattle.reo_propagate.specs.Basis.{IsSearchOn};
ghost use Rattle.reo_propagate.specs.Narrow.{IsTended, IsTendedAt, nobody, IsReduced, IsRevised, AreGreatest};

use crate::state::State;
use crate::thinning::thin;
use crate::waking::wake;
use reo_net_base::Primitive;
use reo_net_circuit::Circuit;
use reo_rows::{Basis, see, sift};
use reo_side_tables::{giver_side, taker_side};
use reo_values::NoMemory;

/// The other side of a joint of a side. This takes no memory.
fn other_side<P: Primitive>(circuit: &Circuit<P>, side: usize, joint: usize) -> usize
    requires { IsJointOf (net_of P.behaviour circuit.now) side joint }
    ensures at { IsJointOf (net_of P.behaviour circuit.now) result joint }
    ensures two { let net = net_of P.behaviour circuit.now in
        (t : ℕ) → AtSide net joint t → (t ≡ side) ⊎ (t ≡ result) }
    ensures in_range { result < length (all_sides (net_of P.behaviour circuit.now).primitives) }
{
    let giver = giver_side(circuit, joint);
    if giver == side {
        taker_side(circuit, joint)
    } else {
        giver
    }
}

/// Takes what is not used at a side away from a joint there. Where it lost a value its other side
/// waits, or can stay. `NoMemory` is out of memory.
fn tend_joint<P: Primitive>(
    basis: &Basis<'_, P>,
    sides: &[usize],
    state: &mut State,
    side: usize,
    joint: usize,
) -> Result<(), NoMemory>
    requires ready { let net = net_of P.behaviour basis.now.circuit.now in
        IsReadyOn net basis.now state.old.alive }
    requires tables { let net = net_of P.behaviour basis.now.circuit.now in
        AreTables net basis.now.items.now state.old.rows }
    requires closed { IsClosed (net_of P.behaviour basis.now.circuit.now) (among sides.now) }
    requires side { let net = net_of P.behaviour basis.now.circuit.now in
        side < length (all_sides net.primitives) }
    requires inside { among sides.now side ≡ true }
    requires joint { IsJointOf (net_of P.behaviour basis.now.circuit.now) side joint }
    requires sifted { let net = net_of P.behaviour basis.now.circuit.now in
        (start : Family) × IsSifted net (names_of basis.now.items.now) start side state.old.rows }
    requires tended { let net = net_of P.behaviour basis.now.circuit.now in
        IsTended net (names_of basis.now.items.now) (among sides.now) side state.old.alive
        state.old.rows state.old.queue }
    ensures tended_at { let net = net_of P.behaviour basis.now.circuit.now in
        IsTendedAt net (names_of basis.now.items.now) side joint state.old state.new }
    ensures tables { let net = net_of P.behaviour basis.now.circuit.now in
        AreTables net basis.now.items.now state.new.rows }
    ensures tended { let net = net_of P.behaviour basis.now.circuit.now in
        OnOk result (IsTended net (names_of basis.now.items.now) (among sides.now) side
        state.new.alive state.new.rows state.new.queue) }
    ensures fewer { OnOk result (count_set state.new.alive + length state.new.queue.line
        ≤ count_set state.old.alive + length state.old.queue.line) }
{
    let _ = sides;
    basis.circuit.known();
    let other = other_side(basis.circuit, side, joint);
    let loss = thin(basis, &mut state.alive, &state.rows, side, joint);
    if loss.some {
        wake(
            basis,
            &state.alive,
            &mut state.rows,
            &mut state.queue,
            other,
            joint,
            loss.flow,
        )?;
    }
    Ok(())
}

/// Takes what is not used at a side away from all joints there. `NoMemory` is out of memory.
fn revise<P: Primitive>(
    basis: &Basis<'_, P>,
    sides: &[usize],
    state: &mut State,
    side: usize,
) -> Result<(), NoMemory>
    requires ready { let net = net_of P.behaviour basis.now.circuit.now in
        IsReadyOn net basis.now state.old.alive }
    requires tables { let net = net_of P.behaviour basis.now.circuit.now in
        AreTables net basis.now.items.now state.old.rows }
    requires closed { IsClosed (net_of P.behaviour basis.now.circuit.now) (among sides.now) }
    requires side { let net = net_of P.behaviour basis.now.circuit.now in
        side < length (all_sides net.primitives) }
    requires inside { among sides.now side ≡ true }
    requires tended { let net = net_of P.behaviour basis.now.circuit.now in
        IsTended net (names_of basis.now.items.now) (among sides.now) side state.old.alive
        state.old.rows state.old.queue }
    ensures revised { let net = net_of P.behaviour basis.now.circuit.now in
        IsRevised net (names_of basis.now.items.now) side state.old.alive state.new.alive }
    ensures tables { let net = net_of P.behaviour basis.now.circuit.now in
        AreTables net basis.now.items.now state.new.rows }
    ensures tended { let net = net_of P.behaviour basis.now.circuit.now in
        OnOk result (IsTended net (names_of basis.now.items.now) (among sides.now) (nobody net)
        state.new.alive state.new.rows state.new.queue) }
    ensures fewer { OnOk result (count_set state.new.alive + length state.new.queue.line
        ≤ count_set state.old.alive + length state.old.queue.line) }
{
    basis.circuit.known();
    sift(basis, &state.alive, &mut state.rows, side)?;
    see(basis, &state.alive, &mut state.rows, side);
    let joints = &basis.boards.at(side).joints;
    for index in 0..joints.len() {
        let joint = *joints.at(index);
        tend_joint(basis, sides, state, side, joint)?;
    }
    Ok(())
}

/// Takes what is not used at these sides away from their joints, until none of them waits. What is
/// left are the greatest supported sets within the old ones; the values of other joints stay. Only
/// what waits is looked at: after a few joints lost values and their sides were let wait it costs
/// what changes.
///
/// # Errors
///
/// `NoMemory` is out of memory; some of what is not used may then still be there, and nothing else
/// has gone.
pub fn propagate<P: Primitive>(
    basis: &Basis<'_, P>,
    sides: &[usize],
    state: &mut State,
) -> Result<(), NoMemory>
    requires search { let net = net_of P.behaviour basis.now.circuit.now in
        IsSearchOn net basis.now (among sides.now) state.old }
    requires closed { IsClosed (net_of P.behaviour basis.now.circuit.now) (among sides.now) }
    requires sides { let net = net_of P.behaviour basis.now.circuit.now in
        (s : ℕ) → among sides.now s ≡ true → s < length (all_sides net.primitives) }
    ensures reduced { let net = net_of P.behaviour basis.now.circuit.now in
        IsReduced net (names_of basis.now.items.now) (among sides.now) state.old.alive
        state.new.alive }
    ensures search { let net = net_of P.behaviour basis.now.circuit.now in
        OnOk result (IsSearchOn net basis.now (among sides.now) state.new) }
    ensures empty { OnOk result (state.new.queue.line ≡ []) }
    ensures greatest { let net = net_of P.behaviour basis.now.circuit.now in
        OnOk result (AreGreatest net (names_of basis.now.items.now) (among sides.now)
        state.old.alive state.new.alive) }
{
    basis.circuit.known();
    while let Some(side) = state.queue.next() {
        revise(basis, sides, state, side)?;
    }
    Ok(())
}
