//! The columns of a table.
ghost use Rattle.std.specs.Prelude.{◌≡◌, IfOk};
ghost use Rattle.std.specs.Fmt.{decimal};
ghost use Rattle.reo_draw_rounds.specs.Columns.{number_column, state_column, port_column, columns_of};

use crate::cells::{cell_text, state_word};
use reo_net_base::Port;
use reo_trace::RoundLine;
use reo_values::{Bytes, List, NoMemory};
use std::alloc::Global;

/// A number in decimal. `NoMemory` is out of memory.
fn number_text(alloc: Global, number: u64) -> Result<Bytes, NoMemory>
    ensures { IfOk result (λ text. text ≡ decimal number) }
{
    match number.to_string(alloc) {
        Ok(digits) => Bytes::from_slice(alloc, digits.as_bytes()),
        Err(_) => Err(NoMemory),
    }
}

/// The column of the numbers of the rounds. `NoMemory` is out of memory.
fn number_column(alloc: Global, rounds: &[RoundLine]) -> Result<List<Bytes>, NoMemory>
    ensures { IfOk result (λ column. column ≡ number_column rounds.now) }
{
    let mut column = List::new(alloc);
    column.push(Bytes::from_slice(alloc, b"round")?)?;
    for line in rounds {
        column.push(number_text(alloc, line.round)?)?;
    }
    Ok(column)
}

/// The column of the words for the rounds. `NoMemory` is out of memory.
fn state_column(alloc: Global, rounds: &[RoundLine]) -> Result<List<Bytes>, NoMemory>
    ensures { IfOk result (λ column. column ≡ state_column rounds.now) }
{
    let mut column = List::new(alloc);
    column.push(Bytes::from_slice(alloc, b"state")?)?;
    for line in rounds {
        column.push(Bytes::from_slice(alloc, state_word(line))?)?;
    }
    Ok(column)
}

/// The column of a port: its name, and what moved there in each round. `NoMemory` is out of memory.
fn port_column(
    alloc: Global,
    rounds: &[RoundLine],
    number: usize,
    port: &Port,
) -> Result<List<Bytes>, NoMemory>
    ensures { IfOk result (λ column. column ≡ port_column rounds.now number port.now) }
{
    let mut column = List::new(alloc);
    column.push(port.name.copy(alloc)?)?;
    for line in rounds {
        column.push(cell_text(alloc, port, number, line)?)?;
    }
    Ok(column)
}

/// All columns: the numbers of the rounds, the words for them, and a column for each port.
/// `NoMemory` is out of memory.
pub(crate) fn columns_of(
    alloc: Global,
    ports: &[Port],
    rounds: &[RoundLine],
) -> Result<List<List<Bytes>>, NoMemory>
    ensures { IfOk result (λ columns. columns ≡ columns_of ports.now rounds.now) }
{
    let mut columns = List::new(alloc);
    columns.push(number_column(alloc, rounds)?)?;
    columns.push(state_column(alloc, rounds)?)?;
    for (number, port) in ports.iter().enumerate() {
        columns.push(port_column(alloc, rounds, number, port)?)?;
    }
    Ok(columns)
}
