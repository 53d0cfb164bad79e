//! The flags of rows and the notes of groups, made anew.
ghost use Rattle.std.specs.Prelude.{◌≡◌, ◌<◌, ℕ, true, IfOk, OnOk, length};
ghost use Rattle.reo_net_base.specs.Net.{net_of, all_sides, row_count};
ghost use Rattle.reo_side_tables.specs.Marks.{side_in, groups_in};
ghost use Rattle.reo_propagate.specs.Queues.{among};
ghost use Rattle.reo_search_tables.specs.Renewing.{AreRightAt, StaysBesides};

use reo_net_base::Primitive;
use reo_net_circuit::Circuit;
use reo_rows::{Group, RowFlags};
use reo_values::{List, NoMemory};
use std::alloc::Global;

/// Makes the flags of the rows of some sides anew. Other flags stay, also after `NoMemory`, which
/// is out of memory.
pub(crate) fn renew_live<P: Primitive>(
    alloc: Global,
    circuit: &Circuit<P>,
    sides: &[usize],
    live: &mut RowFlags,
) -> Result<(), NoMemory>
    requires sides { (s : ℕ) → among sides.now s ≡ true
        → s < length (all_sides (net_of P.behaviour circuit.now).primitives) }
    requires one_each { let net = net_of P.behaviour circuit.now in
        length live.old ≡ length (all_sides net.primitives) }
    ensures stays { StaysBesides sides.now live.old live.new }
    ensures right { let net = net_of P.behaviour circuit.now in OnOk result
        (AreRightAt sides.now (length sides.now)
        (λ s row. length row ≡ row_count (side_in net s)) live.new) }
{
    for side in sides {
        live.renew(alloc, *side, circuit.rows(*side), true)?;
    }
    Ok(())
}

/// So many groups of which nothing is noted. `NoMemory` is out of memory.
fn blank_notes(alloc: Global, count: usize) -> Result<List<Group>, NoMemory>
    ensures { IfOk result (λ notes. length notes ≡ count) }
{
    let blank = Group {
        first: None,
        other: None,
    };
    match vec![in alloc; blank; count] {
        Ok(notes) => Ok(List::from_vec(notes)),
        Err(_) => Err(NoMemory),
    }
}

/// Makes the notes of the groups of some sides anew. Other notes stay, also after `NoMemory`,
/// which is out of memory.
pub(crate) fn renew_notes<P: Primitive>(
    alloc: Global,
    circuit: &Circuit<P>,
    sides: &[usize],
    notes: &mut List<List<Group>>,
) -> Result<(), NoMemory>
    requires sides { (s : ℕ) → among sides.now s ≡ true
        → s < length (all_sides (net_of P.behaviour circuit.now).primitives) }
    requires one_each { let net = net_of P.behaviour circuit.now in
        length notes.old ≡ length (all_sides net.primitives) }
    ensures stays { StaysBesides sides.now notes.old notes.new }
    ensures right { let net = net_of P.behaviour circuit.now in OnOk result
        (AreRightAt sides.now (length sides.now)
        (λ s list. length list ≡ groups_in net s) notes.new) }
{
    for side in sides {
        let blank = blank_notes(alloc, circuit.groups(*side))?;
        *notes.at_mut(*side) = blank;
    }
    Ok(())
}
