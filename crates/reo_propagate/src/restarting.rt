//! Beginning anew at some sides of a search that was made before.
ghost use Rattle.std.specs.Prelude.{◌≡◌, ◌<◌, ◌+◌, ℕ, true, [], OnOk, OnErr, length, slice_index, slice_index_or};
ghost use Rattle.reo_net_base.specs.Net.{net_of, all_sides};
ghost use Rattle.reo_joint_values.specs.declared.value.JointValue.{JointValue as Standing};
ghost use Rattle.reo_side_tables.specs.Boards.{AreBoards};
ghost use Rattle.reo_side_tables.specs.Marks.{IsJointOf};
ghost use Rattle.reo_rows.specs.Rows.{AreTables};
ghost use Rattle.reo_rows.specs.Basis.{IsReadyOn};
ghost use Rattle.reo_rows.specs.Sets.{code_of, family_of};
ghost use Rattle.reo_propagate.specs.Queues.{among};
ghost use Rattle.reo_propagate.specs.Basis.{IsSearchOn};
ghost use Rattle.reo_propagate.specs.Setting.{AreSet, IsOfFirst, IsFresh, AreFresh};

use crate::line::line_of;
use crate::state::State;
use reo_net_base::Primitive;
use reo_net_circuit::Circuit;
use reo_rows::{Basis, RowFlags};
use reo_side_tables::Board;
use reo_values::{List, NoMemory};
use std::alloc::Global;

/// Sets all flags of a row. This takes no memory.
fn set_row(table: &mut RowFlags, row: usize)
    requires { row < length table.old }
    ensures { AreSet (λ r. r ≡ row) table.old table.new }
{
    for place in 0..table.width(row) {
        table.put(row, place, true);
    }
}

/// Sets all flags of some rows. This takes no memory.
fn set_rows(table: &mut RowFlags, rows: &[usize])
    requires { (m : ℕ) → m < length rows.now → slice_index rows.now m < length table.old }
    ensures { AreSet (IsOfFirst rows.now (length rows.now)) table.old table.new }
{
    for row in rows {
        set_row(table, *row);
    }
}

/// Begins anew at a side: all its rows and all values at its joints are there, and it waits. This
/// takes no memory.
fn freshen<P: Primitive>(circuit: &Circuit<P>, boards: &List<Board>, side: usize, state: &mut State)
    requires boards { AreBoards (net_of P.behaviour circuit.now) boards.now }
    requires side { side < length (all_sides (net_of P.behaviour circuit.now).primitives) }
    requires alive { length state.old.alive ≡ length circuit.now.joints }
    requires live { let net = net_of P.behaviour circuit.now in
        length state.old.rows.live ≡ length (all_sides net.primitives) }
    requires waits { let net = net_of P.behaviour circuit.now in
        length state.old.queue.waits ≡ length (all_sides net.primitives) }
    ensures { IsFresh (net_of P.behaviour circuit.now) side state.old state.new }
{
    let _ = circuit;
    set_rows(&mut state.alive, boards.at(side).joints.as_slice());
    set_row(&mut state.rows.live, side);
    *state.queue.waits.at_mut(side) = true;
}

/// Begins anew at some sides, but for the line. This takes no memory.
fn freshen_all<P: Primitive>(
    circuit: &Circuit<P>,
    boards: &List<Board>,
    sides: &[usize],
    state: &mut State,
)
    requires boards { AreBoards (net_of P.behaviour circuit.now) boards.now }
    requires sides { let net = net_of P.behaviour circuit.now in
        (m : ℕ) → m < length sides.now
        → slice_index sides.now m < length (all_sides net.primitives) }
    requires alive { length state.old.alive ≡ length circuit.now.joints }
    requires live { let net = net_of P.behaviour circuit.now in
        length state.old.rows.live ≡ length (all_sides net.primitives) }
    requires waits { let net = net_of P.behaviour circuit.now in
        length state.old.queue.waits ≡ length (all_sides net.primitives) }
    ensures { let net = net_of P.behaviour circuit.now in
        AreFresh net sides.now (length sides.now) state.old state.new }
{
    for side in sides {
        freshen(circuit, boards, *side, state);
    }
}

/// Begins anew at some sides: all their rows and all values at their joints are there again, and
/// these sides wait in the line, and no others. It costs what these sides and their joints have.
///
/// # Errors
///
/// `NoMemory` is out of memory; the search is then as it was.
pub fn restart<P: Primitive>(
    alloc: Global,
    basis: &Basis<'_, P>,
    sides: &[usize],
    state: &mut State,
) -> Result<(), NoMemory>
    requires ready { let net = net_of P.behaviour basis.now.circuit.now in
        IsReadyOn net basis.now state.old.alive }
    requires tables { let net = net_of P.behaviour basis.now.circuit.now in
        AreTables net basis.now.items.now state.old.rows }
    requires waits { let net = net_of P.behaviour basis.now.circuit.now in
        length state.old.queue.waits ≡ length (all_sides net.primitives) }
    requires sides { let net = net_of P.behaviour basis.now.circuit.now in
        (s : ℕ) → among sides.now s ≡ true → s < length (all_sides net.primitives) }
    ensures search { let net = net_of P.behaviour basis.now.circuit.now in
        OnOk result (IsSearchOn net basis.now (among sides.now) state.new) }
    ensures whole { let net = net_of P.behaviour basis.now.circuit.now in
        OnOk result ((j side : ℕ) (v : Standing) → IsJointOf net side j
        → among sides.now side ≡ true → code_of v < length
        (slice_index_or basis.now.items.now j []) + 4 → family_of state.new.alive j v ≡ true) }
    ensures err { OnErr result (state.new ≡ state.old) }
{
    let line = line_of(alloc, sides)?;
    freshen_all(basis.circuit, basis.boards, sides, state);
    state.queue.line = line;
    Ok(())
}
