//! Narrowing sets that are given as lists.
ghost use Rattle.std.specs.Prelude.{◌≡◌, ◌↔◌, ◌<◌, ◌+◌, ◌^◌, ◌==◌, ◌&&◌, ℕ, true, [], IsTrue, IfOk, OnOk, OnErr, length, slice_index_or};
ghost use Rattle.reo_net_base.specs.Net.{net_of, all_sides};
ghost use Rattle.reo_net_circuit.specs.found_ends.Ends.{AreEnds};
ghost use Rattle.reo_net_laws.specs.Parts.{IsClosed};
ghost use Rattle.reo_joint_values.specs.declared.value.JointValue.{JointValue as Standing};
ghost use Rattle.reo_joint_values.specs.Values.{giver_side};
ghost use Rattle.reo_joint_values.specs.Supported.{IsInGreatest};
ghost use Rattle.reo_side_tables.specs.Boards.{IsBoard, AreBoards};
ghost use Rattle.reo_side_tables.specs.Flowing.{gives_at};
ghost use Rattle.reo_side_tables.specs.Marks.{IsJointOf};
ghost use Rattle.reo_rows.specs.Sets.{code_of, family_of, names_of};
ghost use Rattle.reo_propagate.specs.Queues.{among};
ghost use Rattle.reo_propagate.specs.Beginning.{AreFlags};
ghost use Rattle.reo_propagate.specs.Basis.{IsSearchOn};
ghost use Rattle.reo_propagate.specs.ListedSets.{in_set, listed, ArePut, AreKept, HaveSome, HaveFlags, AreLeft, AreInSupply, AreFullAt};

use crate::narrowing::propagate;
use crate::state::{State, all_waiting};
use reo_joint_values::JointValue;
use reo_net_base::Primitive;
use reo_net_circuit::{Circuit, ends_of};
use reo_reach::Supply;
use reo_rows::{Basis, FLOWS, RowFlags, all_rows};
use reo_side_tables::{Board, boards_of, giver_side};
use reo_values::{List, NoMemory, Value};
use std::alloc::Global;

/// A set of values for each joint. Values with flow have the number of their item in the supply.
#[derive(Drop)]
pub struct Sets {
    pub values: List<List<JointValue>>,
}

/// The place of a value among the flags of its joint.
pub fn code_of(value: JointValue) -> usize
    ensures { result ≡ code_of value }
{
    match value {
        JointValue::RG => 0,
        JointValue::GR => 1,
        JointValue::GG => 2,
        JointValue::Jam => 3,
        JointValue::Flow(number) => number as usize + FLOWS,
    }
}

/// Sets the flags of the values of a list, but of those that have no flag. This takes no memory.
fn put_values(alive: &mut RowFlags, joint: usize, values: &[JointValue])
    requires { joint < length alive.old }
    ensures { ArePut joint values.now alive.old alive.new }
{
    for value in values {
        let code = code_of(*value);
        if code < alive.width(joint) {
            alive.put(joint, code, true);
        }
    }
}

/// The flags of the values of lists. `NoMemory` is out of memory.
fn listed_values(alloc: Global, items: &[List<Value>], sets: &Sets) -> Result<RowFlags, NoMemory>
    requires few { (j : ℕ) → length (slice_index_or items.now j []) < 2 ^ 32 }
    requires sets { length sets.now.values ≡ length items.now }
    ensures { IfOk result (AreFlags items.now (length items.now) (listed sets.now.values)) }
{
    let mut alive = RowFlags::new(alloc);
    for joint in 0..items.len() {
        alive.push_row(alloc, items[joint].len() + FLOWS, false)?;
        put_values(&mut alive, joint, sets.values.at(joint).as_slice());
    }
    Ok(alive)
}

/// The values of lists and all rows, where these sides wait. `NoMemory` is out of memory.
pub fn begin_with<P: Primitive>(
    alloc: Global,
    basis: &Basis<'_, P>,
    sides: &[usize],
    sets: &Sets,
) -> Result<State, NoMemory>
    requires boards { AreBoards (net_of P.behaviour basis.now.circuit.now) basis.now.boards.now }
    requires ends { AreEnds (net_of P.behaviour basis.now.circuit.now) basis.now.ends.now }
    requires items { length basis.now.items.now ≡ length basis.now.circuit.now.joints }
    requires few { (j : ℕ) → length (slice_index_or basis.now.items.now j []) < 2 ^ 32 }
    requires sets { length sets.now.values ≡ length basis.now.circuit.now.joints }
    ensures search { let net = net_of P.behaviour basis.now.circuit.now in
        IfOk result (IsSearchOn net basis.now (among sides.now)) }
    ensures values { IfOk result (λ state. (j : ℕ) (v : Standing)
        → j < length basis.now.circuit.now.joints → code_of v < length
        (slice_index_or basis.now.items.now j []) + 4 → family_of state.alive j v ≡ listed
        sets.now.values j v) }
{
    let alive = listed_values(alloc, basis.items, sets)?;
    let rows = all_rows(alloc, basis.circuit, basis.items)?;
    let queue = all_waiting(alloc, basis.circuit.sides(), sides)?;
    Ok(State { alive, rows, queue })
}

/// Keeps the values of a list that have their flags at a joint, and says whether there are any.
/// This takes no memory.
fn keep_values(values: &mut List<JointValue>, alive: &RowFlags, joint: usize) -> bool
    requires joint { joint < length alive.now }
    requires flags { (v : Standing) → in_set values.old v ≡ true
        → code_of v < length (slice_index_or alive.now joint []) }
    ensures values { (v : Standing) → in_set values.new
        v ≡ (in_set values.old v && family_of alive.now joint v) }
    ensures some { IsTrue result ↔ ((v : Standing) × (in_set values.new v ≡ true)) }
{
    let mut count = 0;
    for index in 0..values.len() {
        let value = *values.at(index);
        if alive.is_set(joint, code_of(value)) {
            *values.at_mut(count) = value;
            count += 1;
        }
    }
    values.truncate(count);
    count > 0
}

/// Keeps the values of a joint that have their flags, if a side gives there, and says whether there
/// are any then. This takes no memory.
fn keep_joint<P: Primitive>(
    circuit: &Circuit<P>,
    alive: &RowFlags,
    side: usize,
    joint: usize,
    sets: &mut Sets,
) -> bool
    requires joint { joint < length circuit.now.joints }
    requires one_set { length alive.now ≡ length circuit.now.joints }
    requires one_each { length sets.old.values ≡ length circuit.now.joints }
    requires flags { let net = net_of P.behaviour circuit.now in
        HaveFlags (gives_at net side) alive.now sets.old.values }
    ensures kept { let net = net_of P.behaviour circuit.now in
        AreKept (λ j. (joint == j) && gives_at net side j)
        alive.now sets.old.values sets.new.values }
    ensures some { let net = net_of P.behaviour circuit.now in
        IsTrue result ↔ HaveSome (λ j. (joint == j) && gives_at net side j) sets.new.values }
{
    if giver_side(circuit, joint) != side {
        return true;
    }
    keep_values(sets.values.at_mut(joint), alive, joint)
}

/// Keeps at each joint where a side gives the values that have their flags, and says whether there
/// are any at each. This takes no memory.
fn keep_given<P: Primitive>(
    circuit: &Circuit<P>,
    board: &Board,
    alive: &RowFlags,
    side: usize,
    sets: &mut Sets,
) -> bool
    requires board { IsBoard (net_of P.behaviour circuit.now) side board.now }
    requires one_set { length alive.now ≡ length circuit.now.joints }
    requires one_each { length sets.old.values ≡ length circuit.now.joints }
    requires flags { let net = net_of P.behaviour circuit.now in
        HaveFlags (gives_at net side) alive.now sets.old.values }
    ensures kept { let net = net_of P.behaviour circuit.now in
        AreKept (gives_at net side) alive.now sets.old.values sets.new.values }
    ensures some { let net = net_of P.behaviour circuit.now in
        IsTrue result ↔ HaveSome (gives_at net side) sets.new.values }
{
    let mut full = true;
    for index in 0..board.joints.len() {
        if !keep_joint(circuit, alive, side, *board.joints.at(index), sets) {
            full = false;
        }
    }
    full
}

/// Keeps the values that have their flags at the joints where these sides give, and says whether
/// there are any at each. This takes no memory.
fn keep_sets<P: Primitive>(
    circuit: &Circuit<P>,
    boards: &List<Board>,
    alive: &RowFlags,
    sides: &[usize],
    sets: &mut Sets,
) -> bool
    requires boards { AreBoards (net_of P.behaviour circuit.now) boards.now }
    requires sides { let net = net_of P.behaviour circuit.now in
        (s : ℕ) → among sides.now s ≡ true → s < length (all_sides net.primitives) }
    requires one_set { length alive.now ≡ length circuit.now.joints }
    requires one_each { length sets.old.values ≡ length circuit.now.joints }
    requires flags { let net = net_of P.behaviour circuit.now in
        HaveFlags (λ j. among sides.now (giver_side net j)) alive.now sets.old.values }
    ensures kept { let net = net_of P.behaviour circuit.now in
        AreKept (λ j. among sides.now (giver_side net j))
        alive.now sets.old.values sets.new.values }
    ensures some { let net = net_of P.behaviour circuit.now in
        IsTrue result ↔ HaveSome (λ j. among sides.now (giver_side net j)) sets.new.values }
{
    let mut full = true;
    for side in sides {
        if !keep_given(circuit, boards.at(*side), alive, *side, sets) {
            full = false;
        }
    }
    full
}

/// The flags of the values of lists that narrowing leaves at the joints of these sides. `NoMemory`
/// is out of memory.
fn left_of<P: Primitive>(
    alloc: Global,
    basis: &Basis<'_, P>,
    sides: &[usize],
    sets: &Sets,
) -> Result<RowFlags, NoMemory>
    requires boards { AreBoards (net_of P.behaviour basis.now.circuit.now) basis.now.boards.now }
    requires ends { AreEnds (net_of P.behaviour basis.now.circuit.now) basis.now.ends.now }
    requires items { length basis.now.items.now ≡ length basis.now.circuit.now.joints }
    requires few { (j : ℕ) → length (slice_index_or basis.now.items.now j []) < 2 ^ 32 }
    requires one_each { length sets.now.values ≡ length basis.now.circuit.now.joints }
    requires sides { let net = net_of P.behaviour basis.now.circuit.now in
        (s : ℕ) → among sides.now s ≡ true → s < length (all_sides net.primitives) }
    requires closed { IsClosed (net_of P.behaviour basis.now.circuit.now) (among sides.now) }
    requires numbers { let net = net_of P.behaviour basis.now.circuit.now in
        AreInSupply net (among sides.now) basis.now.items.now (listed sets.now.values) }
    ensures one_set { IfOk result (λ alive. length alive ≡ length basis.now.circuit.now.joints) }
    ensures flags { let net = net_of P.behaviour basis.now.circuit.now in
        IfOk result (λ alive. HaveFlags (λ j. among sides.now (giver_side net j)) alive
        sets.now.values) }
    ensures left { let net = net_of P.behaviour basis.now.circuit.now in
        IfOk result (AreLeft net (names_of basis.now.items.now) (among sides.now)
        (listed sets.now.values)) }
{
    let mut state = begin_with(alloc, basis, sides, sets)?;
    propagate(basis, sides, &mut state)?;
    Ok(state.alive)
}

/// Narrows the sets at the joints of these sides to the greatest supported ones within them, and
/// says whether each of them still has a value. All other sets stay.
///
/// # Errors
///
/// `NoMemory` is out of memory; the sets are then as they were.
pub fn narrow<P: Primitive>(
    alloc: Global,
    circuit: &Circuit<P>,
    supply: &Supply,
    sides: &[usize],
    sets: &mut Sets,
) -> Result<bool, NoMemory>
    requires items { length supply.now.items ≡ length circuit.now.joints }
    requires few { (j : ℕ) → length (slice_index_or supply.now.items j []) < 2 ^ 32 }
    requires one_each { length sets.old.values ≡ length circuit.now.joints }
    requires sides { let net = net_of P.behaviour circuit.now in
        (s : ℕ) → among sides.now s ≡ true → s < length (all_sides net.primitives) }
    requires closed { IsClosed (net_of P.behaviour circuit.now) (among sides.now) }
    requires numbers { let net = net_of P.behaviour circuit.now in
        AreInSupply net (among sides.now) supply.now.items (listed sets.old.values) }
    ensures greatest { let net = net_of P.behaviour circuit.now in
        OnOk result ((j side : ℕ) (v : Standing) → IsJointOf net side j
        → among sides.now side ≡ true → (listed sets.new.values j v ≡ true)
        ↔ IsInGreatest net (names_of supply.now.items) (among sides.now) (listed sets.old.values) j
        v) }
    ensures others { let net = net_of P.behaviour circuit.now in
        (j : ℕ) → ((side : ℕ) → IsJointOf net side j → among sides.now side ≡ true → ⊥)
        → slice_index_or sets.new.values j [] ≡ slice_index_or sets.old.values j [] }
    ensures full { let net = net_of P.behaviour circuit.now in
        IfOk result (λ full. IsTrue full ↔ AreFullAt net (among sides.now)
        (listed sets.new.values)) }
    ensures one_each { length sets.new.values ≡ length sets.old.values }
    ensures err { OnErr result (sets.new ≡ sets.old) }
{
    let ends = ends_of(alloc, circuit)?;
    let boards = boards_of(alloc, circuit, &ends)?;
    let basis = Basis {
        circuit,
        boards: &boards,
        ends: &ends,
        items: supply.lists(),
    };
    let alive = left_of(alloc, &basis, sides, sets)?;
    Ok(keep_sets(circuit, &boards, &alive, sides, sets))
}
