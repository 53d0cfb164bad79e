//! Laws of made work.
ghost use Rattle.reo_gen.specs.laws.Accepted.{WorkIsAccepted};
ghost use Rattle.reo_gen.specs.laws.NotRefused.{AcceptedIsNotRefused};

/// Made work is accepted: its circuit text says a program that breaks no rule, with 14 primitives
/// for each stage and two more, and its script text says a script for the ports of that program.
pub fn work_is_accepted()
    ensures { WorkIsAccepted }
{}

/// A program that is accepted is refused for want of memory alone.
pub fn accepted_is_not_refused()
    ensures { AcceptedIsNotRefused }
{}
