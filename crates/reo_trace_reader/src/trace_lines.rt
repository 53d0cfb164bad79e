//! Lines of a trace, read one by one.
ghost use Rattle.std.specs.Prelude.{◌≡◌, IfOk};
ghost use Rattle.reo_trace_reader.specs.Given.{lines_given};
ghost use Rattle.reo_trace_reader.specs.Streams.{AreLeft, IsTaken};

use crate::given::GivenLines;
use crate::reading::next_round;
use reo_net_base::Ports;
use reo_trace::RoundLine;
use reo_values::{NoMemory, Unread};
use std::alloc::Global;
use std::marker::Model;

/// The round lines that are left of a trace, of which each is read where it is taken. Contracts see
/// the lines.
#[derive(Drop)]
pub struct TraceLines<'a> {
    ports: &'a Ports,
    left: &'a [u8],
    number: u64,
    lines: GivenLines,
}

impl<'a> Model for TraceLines<'a> {
    ghost use Rattle.std.specs.Prelude.{List};
    ghost use Rattle.std.specs.Coded.{coded_list};
    ghost use Rattle.reo_trace.specs.declared.line.RoundLine.{RoundLine};
    ghost use Rattle.reo_trace.specs.contracts.line.RoundLine.{the_row as line_row};
    ghost use Rattle.reo_trace_reader.specs.Given.{lines_given};
    ghost use Rattle.reo_trace_reader.specs.Streams.{AreLeft};

    ghost Value = { List RoundLine };

    ghost coded = { coded_list line_row.coded };

    ghost view = { λ t. lines_given t.lines };

    ghost invariant = { λ t. AreLeft t.ports.now.list t.number t.left.now (lines_given t.lines) };
}

impl<'a> TraceLines<'a> {
    /// These lines, which are those of a text.
    pub(crate) fn new(ports: &'a Ports, text: &'a [u8], lines: GivenLines) -> TraceLines<'a>
        requires { AreLeft ports.now.list 1 text.now (lines_given lines) }
        ensures { result ≡ lines_given lines }
    {
        TraceLines {
            ports,
            left: text,
            number: 1,
            lines,
        }
    }

    /// Takes the first line, or answers None exactly where there is none. `NoMemory` is out of
    /// memory.
    pub fn next(&mut self, alloc: Global) -> Result<Option<RoundLine>, NoMemory>
        ensures { IfOk result (IsTaken self.old self.new) }
    {
        let mut ahead = Unread::new(self.left);
        match next_round(alloc, &mut ahead, self.ports, self.number) {
            Ok(Some(line)) => {
                self.left = ahead.left();
                self.number += 1;
                self.lines = self.lines.rest();
                Ok(Some(line))
            }
            Ok(None) => Ok(None),
            Err(_) => Err(NoMemory),
        }
    }
}
