//! What is left at loop joints, and how many choices of it there are.
ghost use Rattle.std.specs.Prelude.{◌≡◌, ◌≤◌, ◌<◌, ◌*◌, ℕ, true, IfOk, OnOk, length, slice_index};
ghost use Rattle.reo_net_base.specs.Net.{net_of, all_sides};
ghost use Rattle.reo_net_laws.specs.Parts.{IsClosed};
ghost use Rattle.reo_weights.specs.Weights.{capped};
ghost use Rattle.reo_rows.specs.Sets.{names_of};
ghost use Rattle.reo_propagate.specs.Basis.{IsSearchOn};
ghost use Rattle.reo_propagate.specs.Queues.{among};
ghost use Rattle.reo_search.specs.choices.Remaining.{AllAreThere, IsLeftOfAll, AreCodesAt, AreCodes, choices_of};

use reo_net_base::Primitive;
use reo_propagate::{State, propagate};
use reo_rows::{Basis, RowFlags};
use reo_values::{List, NoMemory};
use std::alloc::Global;

/// The greatest weight: what would be more counts as this.
const MOST: u64 = 1_000_000_000_000_000_000;

/// The places of the flags that are set at a joint. `NoMemory` is out of memory.
fn codes_at(alloc: Global, alive: &RowFlags, joint: usize) -> Result<List<usize>, NoMemory>
    requires { joint < length alive.now }
    ensures { IfOk result (AreCodesAt alive.now joint) }
{
    let mut codes = List::new(alloc);
    for code in 0..alive.width(joint) {
        if alive.is_set(joint, code) {
            codes.push(code)?;
        }
    }
    Ok(codes)
}

/// The places of the flags that are set at each of some joints. `NoMemory` is out of memory.
fn codes_of(
    alloc: Global,
    alive: &RowFlags,
    joints: &[usize],
) -> Result<List<List<usize>>, NoMemory>
    requires { (m : ℕ) → m < length joints.now → slice_index joints.now m < length alive.now }
    ensures { IfOk result (AreCodes alive.now joints.now (length joints.now)) }
{
    let mut left = List::new(alloc);
    for index in 0..joints.len() {
        left.push(codes_at(alloc, alive, joints[index])?)?;
    }
    Ok(left)
}

/// One weight times another number, at most the greatest weight.
fn times(weight: u64, count: usize) -> u64
    requires { weight ≤ MOST }
    ensures { result ≡ capped (weight * count) }
{
    if count != 0 && weight > MOST / count as u64 {
        MOST
    } else {
        weight * count as u64
    }
}

/// How many choices there are of one of each list, at most the greatest weight. This takes no
/// memory.
pub(crate) fn weight_of(left: &List<List<usize>>) -> u64
    ensures { result ≡ capped (choices_of left.now) }
{
    let mut weight = 1;
    for index in 0..left.len() {
        weight = times(weight, left.at(index).len());
    }
    weight
}

/// Narrows all values at these sides, and tells what is left at some joints. `NoMemory` is out of
/// memory.
pub(crate) fn narrow_all<P: Primitive>(
    alloc: Global,
    basis: &Basis<'_, P>,
    sides: &[usize],
    state: &mut State,
    loops: &[usize],
) -> Result<List<List<usize>>, NoMemory>
    requires search { let net = net_of P.behaviour basis.now.circuit.now in
        IsSearchOn net basis.now (among sides.now) state.old }
    requires closed { IsClosed (net_of P.behaviour basis.now.circuit.now) (among sides.now) }
    requires sides { let net = net_of P.behaviour basis.now.circuit.now in
        (s : ℕ) → among sides.now s ≡ true → s < length (all_sides net.primitives) }
    requires whole { let net = net_of P.behaviour basis.now.circuit.now in
        AllAreThere net basis.now.items.now (among sides.now) state.old.alive }
    requires loops { (m : ℕ) → m < length loops.now → slice_index loops.now m < length
        basis.now.circuit.now.joints }
    ensures search { let net = net_of P.behaviour basis.now.circuit.now in
        OnOk result (IsSearchOn net basis.now (among sides.now) state.new) }
    ensures left { let net = net_of P.behaviour basis.now.circuit.now in
        OnOk result (IsLeftOfAll net (names_of basis.now.items.now) (among sides.now)
        state.new.alive) }
    ensures codes { IfOk result (AreCodes state.new.alive loops.now (length loops.now)) }
{
    propagate(basis, sides, state)?;
    let left = codes_of(alloc, &state.alive, loops)?;
    Ok(left)
}
