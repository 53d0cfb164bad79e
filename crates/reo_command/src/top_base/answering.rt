//! Answers: a text and a status.
ghost use Rattle.std.specs.Prelude.{◌≡◌, ◌⊎◌};
ghost use Rattle.reo_command.specs.top_base.Cases.{Refuses, EndsWithNoMemory, IsFair, TellsFaults};
ghost use Rattle.reo_command.specs.States.{sink_change};

use crate::{OUT_OF_MEMORY, Status, WRITE_FAULT};
use reo_io::{Sink, put_all};

/// Writes a text whole, and answers this status: 9 where the sink does not take it whole.
pub fn answer<S: Sink>(text: &[u8], status: u8, out: &mut S) -> Status
    ensures answers { Refuses text.now status
        (sink_change S.told S.faults out.old out.new) result.code }
    ensures fair { (status ≡ 9) ⊎ IsFair (sink_change S.told S.faults out.old out.new) result.code }
    ensures tells { TellsFaults (sink_change S.told S.faults out.old out.new) result.code }
{
    match put_all(text, out) {
        Ok(()) => Status { code: status },
        Err(_) => Status { code: WRITE_FAULT },
    }
}

/// Writes that memory ran out, if the sink takes it.
pub fn no_memory<S: Sink>(out: &mut S) -> Status
    ensures says { EndsWithNoMemory (sink_change S.told S.faults out.old out.new) result.code }
    ensures fair { IsFair (sink_change S.told S.faults out.old out.new) result.code }
    ensures tells { TellsFaults (sink_change S.told S.faults out.old out.new) result.code }
{
    match put_all(b"no memory\n", out) {
        Ok(()) => Status {
            code: OUT_OF_MEMORY,
        },
        Err(_) => Status {
            code: OUT_OF_MEMORY,
        },
    }
}
