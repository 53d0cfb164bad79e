//! Writing lines.
ghost use Rattle.std.specs.Prelude.{◌≡◌, ◌<◌, ◌≤◌, OnOk, IsErrOf};
ghost use Rattle.reo_io.specs.Causes.{Rose};
ghost use Rattle.reo_io.specs.Sinks.{Appended, TookPart};
ghost use Rattle.reo_trace.specs.EndingText.{ending_text};
ghost use Rattle.reo_trace.specs.RoundText.{round_text};
ghost use Rattle.reo_trace.specs.declared.write.WriteFault.TheVariants.{Failed as SinkFailed, NoMemory as OutOfMemory};

use crate::{Ending, RoundLine, ending_line_text, round_line_text};
use reo_io::{Sink, SinkFault, put_all};
use reo_net_base::Ports;
use reo_values::NoMemory;
use std::alloc::Global;

/// Why a line was not written.
#[derive(Clone, Copy, Debug, PartialEq, Eq)]
pub enum WriteFault {
    /// The sink failed: it took a front of the line, and not the whole.
    Failed,
    /// Out of memory: the sink was not called.
    NoMemory,
}

impl From<NoMemory> for WriteFault {
    ghost from_gives = { λ _ fault. fault ≡ OutOfMemory };

    fn from(_: NoMemory) -> Self {
        WriteFault::NoMemory
    }
}

impl From<SinkFault> for WriteFault {
    ghost from_gives = { λ _ fault. fault ≡ SinkFailed };

    fn from(_: SinkFault) -> Self {
        WriteFault::Failed
    }
}

/// Writes a round line. The whole line is made first, and then put.
///
/// # Errors
///
/// `Failed` comes only where the sink's count of faults rose, and it rises nowhere else: a front of
/// the line was taken, and not the whole. `NoMemory` is out of memory: the sink stays as it was.
pub fn write_round<S: Sink>(
    alloc: Global,
    ports: &Ports,
    line: &RoundLine,
    out: &mut S,
) -> Result<(), WriteFault>
    ensures ok { OnOk result (Appended (S.told out.old) (S.told out.new)
        (round_text ports.now.list line.now)) }
    ensures failed { IsErrOf result WriteFault.Failed
        → TookPart (S.told out.old) (S.told out.new) (round_text ports.now.list line.now) }
    ensures cause { IsErrOf result WriteFault.Failed → Rose (S.faults out.old) (S.faults out.new) }
    ensures memory { IsErrOf result WriteFault.NoMemory → out.new ≡ out.old }
    ensures count { S.faults out.old ≤ S.faults out.new }
    ensures risen { S.faults out.old < S.faults out.new → IsErrOf result WriteFault.Failed }
{
    let text = round_line_text(alloc, ports, line)?;
    put_all(text.as_slice(), out)?;
    Ok(())
}

/// Writes the last line, as `write_round` writes a round line.
///
/// # Errors
///
/// The same as those of `write_round`.
pub fn write_ending<S: Sink>(alloc: Global, ending: &Ending, out: &mut S) -> Result<(), WriteFault>
    ensures ok { OnOk result (Appended (S.told out.old) (S.told out.new) (ending_text ending.now)) }
    ensures failed { IsErrOf result WriteFault.Failed
        → TookPart (S.told out.old) (S.told out.new) (ending_text ending.now) }
    ensures cause { IsErrOf result WriteFault.Failed → Rose (S.faults out.old) (S.faults out.new) }
    ensures memory { IsErrOf result WriteFault.NoMemory → out.new ≡ out.old }
    ensures count { S.faults out.old ≤ S.faults out.new }
    ensures risen { S.faults out.old < S.faults out.new → IsErrOf result WriteFault.Failed }
{
    let text = ending_line_text(alloc, ending)?;
    put_all(text.as_slice(), out)?;
    Ok(())
}
