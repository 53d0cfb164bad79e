//! The tables of all sides, by columns.
ghost use Rattle.std.specs.Prelude.{◌≡◌, ◌<◌, ◌++◌, ◌∷◌, [], IfOk, OnOk, length, replicate, slice_index_or, slice_set};
ghost use Rattle.reo_net_base.specs.Net.{net_of};
ghost use Rattle.reo_net_base.specs.Sides.{side_count};
ghost use Rattle.reo_refute_live.specs.support.Columns.{AreTables, IsColumnAdded};

use crate::support::columns::{Column, column_of, end_at};
use reo_net_base::Primitive;
use reo_net_circuit::Circuit;
use reo_values::{List, NoMemory};
use std::alloc::Global;

/// So many tables without a column.
fn no_columns(alloc: Global, count: usize) -> Result<Vec<List<Column>>, NoMemory>
    ensures { IfOk result (λ tables. tables.items ≡ replicate count []) }
{
    let mut tables = List::new(alloc);
    for _index in 0..count {
        tables.push(List::new(alloc))?;
    }
    Ok(tables.into_vec())
}

/// Adds the column of the giver or of the taker of a joint to the table of its side.
fn add_column<P: Primitive>(
    alloc: Global,
    circuit: &Circuit<P>,
    joint: usize,
    gives: bool,
    tables: &mut Vec<List<Column>>,
) -> Result<(), NoMemory>
    requires joint { joint < length circuit.now.joints }
    requires tables { length tables.old.items ≡ side_count (net_of P.behaviour circuit.now) }
    ensures { let net = net_of P.behaviour circuit.now in
        OnOk result (IsColumnAdded net joint gives tables.old.items tables.new.items) }
{
    let side = circuit.side_of(end_at(circuit, joint, gives));
    let column = column_of(alloc, circuit, joint, gives)?;
    tables[side].push(column)
}

/// For each side a column for each of its ends. `NoMemory` is out of memory.
pub fn tables_of<P: Primitive>(
    alloc: Global,
    circuit: &Circuit<P>,
) -> Result<List<List<Column>>, NoMemory>
    ensures { let net = net_of P.behaviour circuit.now in IfOk result (AreTables net) }
{
    circuit.known();
    let mut tables = no_columns(alloc, circuit.sides())?;
    for joint in 0..circuit.joint_count() {
        add_column(alloc, circuit, joint, true, &mut tables)?;
        add_column(alloc, circuit, joint, false, &mut tables)?;
    }
    Ok(List::from_vec(tables))
}
