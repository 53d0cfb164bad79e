//! What stands next in a proof text.
ghost use Rattle.std.specs.Prelude.{◌≡◌, ℕ, IfOk};
ghost use Rattle.reo_trace_reader.specs.texts.Lines.{AreTold};
ghost use Rattle.reo_proof_reader.specs.Found.{IsFound};

use crate::log::{Log, take_log};
use crate::reader::ProofReader;
use reo_net_base::Ports;
use reo_trace_reader::{Ending, LineFault, RoundLine, TraceLine, read_line};
use reo_values::NoMemory;
use std::alloc::Global;

/// What stands next in a proof text.
#[derive(Drop)]
pub enum Next<'a> {
    /// A round: its line, the text of its log, and how many lines the log has.
    Round {
        line: RoundLine,
        log: &'a [u8],
        lines: u64,
    },
    /// An ending, behind which nothing follows.
    Ending(Ending),
    /// A wrong line, counted from here.
    Wrong {
        line: u64,
    },
}

/// What stands next in a proof text, where the round of this number should, and takes a round with
/// its log and the line `proved`. `NoMemory` is out of memory.
pub fn read_next<'a>(
    alloc: Global,
    reader: &mut ProofReader<'a>,
    ports: &Ports,
    number: u64,
) -> Result<Next<'a>, NoMemory>
    requires { AreTold ports.now.list }
    ensures { IfOk result (IsFound ports.now.list number reader.old reader.new) }
{
    let Some(text) = reader.line() else {
        return Ok(Next::Wrong { line: 1 });
    };
    match read_line(alloc, text, ports) {
        Ok(TraceLine::Round(line)) => {
            if line.round == number {
                match take_log(reader) {
                    Ok(Log { text: log, lines }) => Ok(Next::Round { line, log, lines }),
                    Err(lines) => Ok(Next::Wrong { line: lines + 2 }),
                }
            } else {
                Ok(Next::Wrong { line: 1 })
            }
        }
        Ok(TraceLine::Ending(ending)) => {
            if reader.is_done() {
                Ok(Next::Ending(ending))
            } else {
                Ok(Next::Wrong { line: 1 })
            }
        }
        Err(LineFault::Form) => Ok(Next::Wrong { line: 1 }),
        Err(LineFault::NoMemory) => Err(NoMemory),
    }
}
