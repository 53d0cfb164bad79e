//! The judgement of one round line.
ghost use Rattle.std.specs.Prelude.{◌≡◌, IfOk, MatchResult};
ghost use Rattle.reo_net_base.specs.Net.{net_of};
ghost use Rattle.reo_net_base.specs.Colouring.{IsColouring};
ghost use Rattle.reo_trace.specs.Entries.{line_for};
ghost use Rattle.reo_runs.specs.verdicts.Said.{AreSaid};
ghost use Rattle.reo_verify.specs.judging.Judged.{IsStopBy, IsColouringSaid, IsPlanShown, IsLineStop};

use crate::judging::rows::{are_counted, row_break, rows_said};
use reo_checker::{Wrong, check_marks, item_fault};
use reo_net::{are_moves, fill};
use reo_net_base::{Colouring, Primitive};
use reo_net_circuit::Circuit;
use reo_rounds::{Plan, plan_with};
use reo_trace::{Entry, RoundLine};
use reo_values::{List, NoMemory};
use std::alloc::Global;

/// Why a line is not that of a round.
#[derive(Clone, Copy)]
pub enum Stop {
    /// Its entries are none of a colouring.
    Wrong(Wrong),
    /// It shows other moves than its rows make.
    Moves,
    /// Out of memory.
    NoMemory,
}

impl From<NoMemory> for Stop {
    ghost use Rattle.std.specs.Prelude.{◌≡◌};
    ghost use Rattle.reo_verify.specs.declared.judging.judging.Stop.TheVariants.{NoMemory as OutOfMemory};

    ghost from_gives = { λ _ stop. stop ≡ OutOfMemory };

    fn from(_: NoMemory) -> Self {
        Stop::NoMemory
    }
}

/// The rows that entries say: one for each side, each in the table of its side.
fn read_rows<P: Primitive>(
    alloc: Global,
    circuit: &Circuit<P>,
    entries: &[Entry],
) -> Result<List<u32>, Stop>
    ensures { let net = net_of P.behaviour circuit.now in
        MatchResult result (AreSaid net entries.now) (IsStopBy net entries.now) }
{
    if !are_counted(circuit, entries) {
        return Err(Stop::Wrong(Wrong::Count));
    }
    if let Some(primitive) = row_break(circuit, entries) {
        return Err(Stop::Wrong(Wrong::Row { primitive }));
    }
    Ok(rows_said(alloc, circuit, entries)?)
}

/// The colouring that entries say, with the items that its rows determine.
fn colouring_of<P: Primitive>(
    alloc: Global,
    circuit: &Circuit<P>,
    entries: &[Entry],
) -> Result<Colouring, Stop>
    ensures { let net = net_of P.behaviour circuit.now in
        MatchResult result (IsColouringSaid net entries.now) (IsStopBy net entries.now) }
{
    let rows = read_rows(alloc, circuit, entries)?;
    if let Err(wrong) = check_marks(circuit, rows.as_slice()) {
        return Err(Stop::Wrong(wrong));
    }
    let colouring = fill(alloc, circuit, rows)?;
    let rows = colouring.rows.as_slice();
    let items = colouring.items.as_slice();
    if let Some(joint) = item_fault(circuit, rows, items) {
        return Err(Stop::Wrong(Wrong::Item { joint }));
    }
    Ok(colouring)
}

/// The plan that a line shows: its entries say a colouring of the circuit, and its moves, and
/// whether it is idle, are those of it.
///
/// # Errors
///
/// `Wrong` with what is wrong first with the entries; `Moves` where they say a colouring and the
/// line shows other moves, or says otherwise whether it is idle. `NoMemory` is out of memory.
pub fn plan_of<P: Primitive>(
    alloc: Global,
    circuit: &Circuit<P>,
    line: &RoundLine,
) -> Result<Plan, Stop>
    ensures { let net = net_of P.behaviour circuit.now in
        MatchResult result (IsPlanShown net circuit.now.ports line.now)
        (IsLineStop net circuit.now.ports line.now) }
{
    let colouring = colouring_of(alloc, circuit, line.entries.as_slice())?;
    let plan = plan_with(alloc, circuit, colouring)?;
    let rows = plan.colouring.rows.as_slice();
    let items = plan.colouring.items.as_slice();
    if line.idle == plan.idle && are_moves(circuit, rows, items, line.moves.as_slice()) {
        Ok(plan)
    } else {
        Err(Stop::Moves)
    }
}
