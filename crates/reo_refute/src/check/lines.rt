//! The lines of a log, counted.
ghost use Rattle.std.specs.Prelude.{◌≡◌, ◌+◌, ◌<◌, ◌^◌, length};
ghost use Rattle.reo_refute.specs.declared.check.stop.LogStop.TheVariants.{Line as AtLine};
ghost use Rattle.reo_refute.specs.check.Reading.{Takes, IsShort};

use crate::check::stop::LogStop;
use reo_refute_base::LogLine;
use reo_refute_parts::line;
use reo_values::Unread;

/// What is left of a log, and how many lines were taken.
#[derive(Drop)]
pub(crate) struct Lines<'a> {
    pub(crate) left: Unread<'a>,
    pub(crate) count: u64,
}

impl<'a> Lines<'a> {
    /// All lines of a text are left.
    pub(crate) fn new(text: &'a [u8]) -> Lines<'a>
        ensures left { result.left ≡ text.now }
        ensures count { result.count ≡ 0 }
        ensures short { IsShort result }
    {
        let _length = text.len();
        Lines {
            left: Unread::new(text),
            count: 0,
        }
    }

    /// Takes the next line, if one stands there, and counts it in any case.
    pub(crate) fn next(&mut self) -> Option<LogLine>
        requires { IsShort self.old }
        ensures { Takes self.old self.new result }
    {
        self.count += 1;
        line(&mut self.left)
    }

    /// The line that was taken last is not right.
    pub(crate) fn wrong(&self) -> LogStop
        ensures { result ≡ AtLine self.now.count }
    {
        LogStop::Line(self.count)
    }
}
