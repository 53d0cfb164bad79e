//! Laws of script texts. Each function is empty: its contract is a law.
ghost use Rattle.reo_script.specs.scripts.ScriptForms.{CircuitsAreReadAlike, CircuitsSayAlike};
ghost use Rattle.reo_script.specs.scripts.ScriptAnswers.{EachScriptIsAnswered};
ghost use Rattle.reo_script.specs.scripts.Events.{EachLineIsAnswered};

/// A rule of circuits, as that of literals, is read alike in scripts.
pub fn circuits_are_read_alike()
    ensures { CircuitsAreReadAlike }
{}

/// A rule of circuits says the same in scripts.
pub fn circuits_say_alike()
    ensures { CircuitsSayAlike }
{}

/// Every text has an answer, for any ports: a script or a refusal.
pub fn each_script_is_answered()
    ensures { EachScriptIsAnswered }
{}

/// Every event line has an answer, for any ports.
pub fn each_line_is_answered()
    ensures { EachLineIsAnswered }
{}
