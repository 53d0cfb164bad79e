//! The text of boundary tables.
ghost use Rattle.std.specs.Prelude.{◌≡◌, ◌++◌, IfOk, OnOk, length};
ghost use Rattle.std.specs.List.{flat_map};
ghost use Rattle.reo_listing.specs.texts.TableTexts.{table_text};
ghost use Rattle.reo_listing.specs.texts.TablesText.{row_count, count_line, tables_text};

use crate::base::BoundaryTable;
use crate::texts::numbers::append_numbered;
use crate::texts::table::append_table;
use reo_net_base::Port;
use reo_values::{Bytes, NoMemory};
use std::alloc::Global;

/// Adds the lines of some tables.
fn append_tables(
    alloc: Global,
    text: &mut Bytes,
    ports: &[Port],
    tables: &[BoundaryTable],
) -> Result<(), NoMemory>
    ensures { OnOk result (text.new ≡ text.old ++ flat_map (table_text ports.now) tables.now) }
{
    for table in tables {
        append_table(alloc, text, ports, table)?;
    }
    Ok(())
}

/// How many lists some tables have.
fn row_count(tables: &[BoundaryTable]) -> u128
    ensures { result ≡ row_count tables.now }
{
    let mut count = 0u128;
    for table in tables {
        count += table.rows.len() as u128;
    }
    count
}

/// Adds how many tables and lists there are.
#[tactic(auto, unfolding(crate::specs::texts::TablesText::count_line))]
fn append_counts(alloc: Global, text: &mut Bytes, tables: &[BoundaryTable]) -> Result<(), NoMemory>
    ensures { OnOk result (text.new ≡ text.old ++ count_line (length tables.now)
        (row_count tables.now)) }
{
    append_numbered(alloc, text, b"listed ", tables.len() as u128)?;
    append_numbered(alloc, text, b" parts, ", row_count(tables))?;
    text.append(b" rows\n")
}

/// The text of boundary tables: for each table a line with its part and the names of its ports and
/// a line for each of its lists, and then how many tables and lists there are. `NoMemory` is out
/// of memory.
pub fn tables_text(
    alloc: Global,
    ports: &[Port],
    tables: &[BoundaryTable],
) -> Result<Bytes, NoMemory>
    ensures { IfOk result (λ text. text ≡ tables_text ports.now tables.now) }
{
    let mut text = Bytes::new(alloc);
    append_tables(alloc, &mut text, ports, tables)?;
    append_counts(alloc, &mut text, tables)?;
    Ok(text)
}
