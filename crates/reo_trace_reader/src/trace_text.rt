//! Texts of traces, which are read line by line.
ghost use Rattle.std.specs.Prelude.{◌≡◌, Result, IfOk, IfErr};
ghost use Rattle.reo_trace_reader.specs.declared.texts.trace.Trace.{Trace as ATrace};
ghost use Rattle.reo_trace_reader.specs.declared.texts.fault.TraceFault.{TraceFault as AFault};
ghost use Rattle.reo_trace_reader.specs.texts.Answers.{Answers, IsRead, IsThis};
ghost use Rattle.reo_trace_reader.specs.texts.Lines.{AreTold};
ghost use Rattle.reo_trace_reader.specs.texts.Texts.{IsTraceText};
ghost use Rattle.reo_trace_reader.specs.Given.{trace_given};
ghost use Rattle.reo_trace_reader.specs.Streams.{IsFaultOf};

use crate::given::{GivenLines, GivenTrace};
use crate::ports::copy_ports;
use crate::reading::{last_line, next_round};
use crate::texts::{Trace, TraceFault, one_trace_answer};
use crate::trace_lines::TraceLines;
use reo_net_base::Ports;
use reo_trace::Ending;
use reo_values::{Bytes, List, NoMemory, Unread};
use std::alloc::Global;
use std::marker::Model;

/// The text of a trace, for the ports of its circuit. Contracts see the trace. It holds the text
/// alone: a line is read where it is wanted, and let go.
#[derive(Drop)]
pub struct TraceText {
    ports: Ports,
    text: Bytes,
    trace: GivenTrace,
}

impl Model for TraceText {
    ghost use Rattle.reo_trace_reader.specs.declared.texts.trace.Trace.{Trace};
    ghost use Rattle.reo_trace_reader.specs.contracts.texts.trace.Trace.{the_row as trace_row};
    ghost use Rattle.reo_trace_reader.specs.Given.{trace_given};
    ghost use Rattle.reo_trace_reader.specs.Streams.{IsToldText};

    ghost Value = { Trace };

    ghost coded = { trace_row.coded };

    ghost view = { λ t. trace_given t.trace };

    ghost invariant = { λ t. IsToldText t.ports.list t.text (trace_given t.trace) };
}

/// The trace that a text is, of which each line is read and let go.
///
/// # Errors
///
/// `Line` comes exactly where the text is no trace, with its first wrong line. `NoMemory` is out of
/// memory.
fn walk(alloc: Global, text: &[u8], ports: &Ports) -> Result<GivenTrace, TraceFault>
    requires { AreTold ports.now.list }
    ensures found { IfOk result (λ trace.
        IsTraceText ports.now.list text.now (trace_given trace)) }
    ensures fault { IfErr result (IsFaultOf ports.now.list text.now) }
{
    let mut lines = GivenLines::new();
    let mut reader = Unread::new(text);
    let mut number = 1;
    while let Some(line) = next_round(alloc, &mut reader, ports, number)? {
        lines = lines.then(&line);
        number += 1;
    }
    match last_line(reader.left()) {
        Some(ending) => Ok(GivenTrace { lines, ending }),
        None => Err(TraceFault::Line { line: number }),
    }
}

impl TraceText {
    /// The trace that a text is, for the ports of its circuit: the lines of the rounds 1, 2, 3 and
    /// so on, and one ending, each with its line feed.
    ///
    /// # Errors
    ///
    /// `Line` comes exactly where the text is no trace, with its first wrong line, from 1: the
    /// first that is neither the line of the next round nor, as the last line, an ending; where
    /// the text ends without an ending, the line after the last. A last line without line feed is
    /// wrong, and so is line 1 of the empty text. `NoMemory` is out of memory.
    pub fn read(alloc: Global, text: Bytes, ports: &Ports) -> Result<TraceText, TraceFault>
        requires { AreTold ports.now.list }
        ensures read { IsRead ports.now.list text result }
        ensures only { (answer : Result ATrace AFault) → Answers ports.now.list text answer
            → IsThis answer result }
    {
        one_trace_answer();
        match walk(alloc, text.as_slice(), ports) {
            Ok(trace) => {
                let ports = copy_ports(alloc, ports)?;
                Ok(TraceText { ports, text, trace })
            }
            Err(fault) => Err(fault),
        }
    }

    /// How the run ended.
    pub fn ending(&self) -> Ending
        ensures { result ≡ self.now.ending }
    {
        self.trace.ending
    }

    /// The round lines, from that of round 1 on.
    pub fn lines<'a>(&'a self) -> TraceLines<'a>
        ensures { result ≡ self.now.rounds }
    {
        let lines = self.trace.lines.all();
        TraceLines::new(&self.ports, self.text.as_slice(), lines)
    }

    /// The trace, with all its lines. `NoMemory` is out of memory.
    pub fn whole(&self, alloc: Global) -> Result<Trace, NoMemory>
        ensures { IfOk result (λ trace. trace ≡ self.now) }
    {
        let mut rounds = List::new(alloc);
        let mut lines = self.lines();
        while let Some(line) = lines.next(alloc)? {
            rounds.push(line)?;
        }
        let ending = self.ending();
        Ok(Trace { rounds, ending })
    }
}
