//! Leaving one value alone at joints.
ghost use Rattle.std.specs.Prelude.{◌≡◌, ◌<◌, ◌≤◌, ℕ, true, OnOk, length, slice_index, slice_index_or, []};
ghost use Rattle.reo_net_base.specs.Net.{net_of};
ghost use Rattle.reo_net_laws.specs.Parts.{IsClosed};
ghost use Rattle.reo_joint_values.specs.Values.{giver_side};
ghost use Rattle.reo_propagate.specs.Basis.{IsSearchOn};
ghost use Rattle.reo_propagate.specs.Queues.{among};
ghost use Rattle.reo_walk.specs.Pins.{IsPinnedBelow, IsPinned, ArePinned};

use crate::hold::one_more;
use reo_net_base::Primitive;
use reo_propagate::{Loss, State, wake};
use reo_rows::{Basis, RowFlags};
use reo_side_tables::{giver_side, taker_side};
use reo_values::NoMemory;

/// Takes all values of a joint away but one.
fn pin_joint(alive: &mut RowFlags, joint: usize, chosen: usize) -> Loss
    requires { joint < length alive.old }
    ensures { IsPinnedBelow joint chosen (length (slice_index_or alive.old joint [])) alive.old
        alive.new result }
{
    let mut loss = Loss {
        some: false,
        flow: false,
    };
    for code in 0..alive.width(joint) {
        if code != chosen && alive.is_set(joint, code) {
            alive.clear(joint, code);
            loss = one_more(loss, code);
        }
    }
    loss
}

/// Leaves one value alone at a joint. Where it lost a value its two sides wait, or can stay.
fn pin_and_wake<P: Primitive>(
    basis: &Basis<'_, P>,
    sides: &[usize],
    state: &mut State,
    joint: usize,
    chosen: usize,
) -> Result<(), NoMemory>
    requires search { let net = net_of P.behaviour basis.now.circuit.now in
        IsSearchOn net basis.now (among sides.now) state.old }
    requires closed { IsClosed (net_of P.behaviour basis.now.circuit.now) (among sides.now) }
    requires joint { joint < length basis.now.circuit.now.joints }
    requires inside { let net = net_of P.behaviour basis.now.circuit.now in
        among sides.now (giver_side net joint) ≡ true }
    ensures pinned { OnOk result (IsPinned joint chosen state.old.alive state.new.alive) }
    ensures search { let net = net_of P.behaviour basis.now.circuit.now in
        OnOk result (IsSearchOn net basis.now (among sides.now) state.new) }
{
    let _ = sides;
    basis.circuit.known();
    let giver = giver_side(basis.circuit, joint);
    let taker = taker_side(basis.circuit, joint);
    let loss = pin_joint(&mut state.alive, joint, chosen);
    if loss.some {
        wake(
            basis,
            &state.alive,
            &mut state.rows,
            &mut state.queue,
            giver,
            joint,
            loss.flow,
        )?;
        wake(
            basis,
            &state.alive,
            &mut state.rows,
            &mut state.queue,
            taker,
            joint,
            loss.flow,
        )?;
    }
    Ok(())
}

/// Leaves one value alone at each of some joints, the one of its number. `NoMemory` is out of
/// memory.
pub fn pin<P: Primitive>(
    basis: &Basis<'_, P>,
    sides: &[usize],
    state: &mut State,
    joints: &[usize],
    codes: &[usize],
) -> Result<(), NoMemory>
    requires search { let net = net_of P.behaviour basis.now.circuit.now in
        IsSearchOn net basis.now (among sides.now) state.old }
    requires closed { IsClosed (net_of P.behaviour basis.now.circuit.now) (among sides.now) }
    requires joints { (m : ℕ) → m < length joints.now → slice_index joints.now m < length
        basis.now.circuit.now.joints }
    requires inside { let net = net_of P.behaviour basis.now.circuit.now in
        (m : ℕ) → m < length joints.now → among sides.now
        (giver_side net (slice_index joints.now m)) ≡ true }
    requires one_each { length joints.now ≤ length codes.now }
    ensures pinned { OnOk result (ArePinned joints.now codes.now (length joints.now) state.old.alive
        state.new.alive) }
    ensures search { let net = net_of P.behaviour basis.now.circuit.now in
        OnOk result (IsSearchOn net basis.now (among sides.now) state.new) }
{
    for index in 0..joints.len() {
        let joint = joints[index];
        let chosen = codes[index];
        pin_and_wake(basis, sides, state, joint, chosen)?;
    }
    Ok(())
}
