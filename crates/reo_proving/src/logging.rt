//! Rounds that are written with their logs.
ghost use Rattle.std.specs.Prelude.{◌≡◌, ◌<◌, ◌≤◌, ◌++◌, IfOk, OnOk, IsErrOf};
ghost use Rattle.reo_io.specs.Causes.{Rose};
ghost use Rattle.reo_io.specs.Sinks.{Appended, TookPart};
ghost use Rattle.reo_net_base.specs.Net.{net_of};
ghost use Rattle.reo_trace.specs.RoundText.{round_text};
ghost use Rattle.reo_trace.specs.declared.write.WriteFault.TheVariants.{Failed as SinkFailed, NoMemory as OutOfMemory};
ghost use Rattle.reo_refute_base.specs.Wide.{IsWide};
ghost use Rattle.reo_refute.specs.check.Judging.{IsFirstRows};
ghost use Rattle.reo_proving.specs.Rounds.{HasLogged, HasLoggedPart, IsEndedLog};

use reo_io::{Sink, put_all};
use reo_net_base::{Ports, Primitive};
use reo_net_circuit::Circuit;
use reo_refute::prove;
use reo_runner::PlannedRound;
use reo_trace::{RoundLine, WriteFault, write_round};
use reo_values::{Bytes, NoMemory};
use std::alloc::Global;

/// A log that shows that no colouring stands before the rows of the first, and behind it the line
/// `proved`. `NoMemory` is out of memory.
fn ended_log<P: Primitive>(
    alloc: Global,
    circuit: &Circuit<P>,
    turn: u64,
    rows: &[u32],
) -> Result<Bytes, NoMemory>
    requires first { IsFirstRows (net_of P.behaviour circuit.now) turn rows.now }
    requires narrow { IsWide (net_of P.behaviour circuit.now) → ⊥ }
    ensures { let net = net_of P.behaviour circuit.now in
        IfOk result (λ text. IsEndedLog net turn rows.now text) }
{
    let mut text = prove(alloc, circuit, turn, rows)?;
    text.append(b"proved\n")?;
    Ok(text)
}

/// Writes a round line, and a text behind it.
///
/// # Errors
///
/// `Failed` comes only where the sink's count of faults rose, and it rises nowhere else: a front of
/// both was taken, and not the whole. `NoMemory` is out of memory: the sink stays as it was.
fn write_both<S: Sink>(
    alloc: Global,
    ports: &Ports,
    line: &RoundLine,
    text: &[u8],
    out: &mut S,
) -> Result<(), WriteFault>
    ensures ok { OnOk result (Appended (S.told out.old) (S.told out.new)
        (round_text ports.now.list line.now ++ text.now)) }
    ensures failed { IsErrOf result SinkFailed → TookPart (S.told out.old) (S.told out.new)
        (round_text ports.now.list line.now ++ text.now) }
    ensures cause { IsErrOf result SinkFailed → Rose (S.faults out.old) (S.faults out.new) }
    ensures memory { IsErrOf result OutOfMemory → out.new ≡ out.old }
    ensures later { S.faults out.old ≤ S.faults out.new }
    ensures risen { S.faults out.old < S.faults out.new → IsErrOf result SinkFailed }
{
    write_round(alloc, ports, line, out)?;
    put_all(text, out)?;
    Ok(())
}

/// Writes the line of a planned round, a log that shows that it is first, and the line `proved`.
///
/// # Errors
///
/// As those of `write_both`.
pub(crate) fn write_logged<P: Primitive, S: Sink>(
    alloc: Global,
    circuit: &Circuit<P>,
    turn: u64,
    ports: &Ports,
    planned: &PlannedRound,
    out: &mut S,
) -> Result<(), WriteFault>
    requires first { let net = net_of P.behaviour circuit.now in
        IsFirstRows net turn planned.now.plan.colouring.rows }
    requires narrow { IsWide (net_of P.behaviour circuit.now) → ⊥ }
    ensures ok { let net = net_of P.behaviour circuit.now in
        OnOk result (HasLogged net turn planned.now.plan.colouring.rows ports.now.list
        planned.now.line (S.told out.old) (S.told out.new)) }
    ensures failed { let net = net_of P.behaviour circuit.now in IsErrOf result SinkFailed
        → HasLoggedPart net turn planned.now.plan.colouring.rows ports.now.list
        planned.now.line (S.told out.old) (S.told out.new) }
    ensures cause { IsErrOf result SinkFailed → Rose (S.faults out.old) (S.faults out.new) }
    ensures memory { IsErrOf result OutOfMemory → out.new ≡ out.old }
    ensures later { S.faults out.old ≤ S.faults out.new }
    ensures risen { S.faults out.old < S.faults out.new → IsErrOf result SinkFailed }
{
    let rows = planned.plan.colouring.rows.as_slice();
    let text = ended_log(alloc, circuit, turn, rows)?;
    write_both(alloc, ports, &planned.line, text.as_slice(), out)
}
