//! Texts tell their traces.
ghost use Rattle.reo_trace_reader.specs.texts.Laws.{OneTraceOfText, TraceHasNoWrongLine, OneWrongLine, OneAnswer, OneLineAnswer};

/// No text is that of two traces.
pub fn one_trace_of_text()
    ensures { OneTraceOfText }
{}

/// The text of a trace has no wrong line.
pub fn trace_has_no_wrong_line()
    ensures { TraceHasNoWrongLine }
{}

/// A text has at most one first wrong line.
pub fn one_wrong_line()
    ensures { OneWrongLine }
{}

/// A text is answered in one way: it is one trace, or has one first wrong line.
pub fn one_trace_answer()
    ensures { OneAnswer }
{}

/// A line is answered in one way: it is that of one round, one ending, or neither.
pub fn one_line_answer()
    ensures { OneLineAnswer }
{}
