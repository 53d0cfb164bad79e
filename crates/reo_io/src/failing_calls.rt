//! Which calls of an object in memory fail.
ghost use Rattle.std.specs.Prelude.{◌≡◌, ◌↔◌, IsTrue};

use reo_values::List;

/// The numbers of the calls that are to fail, and how many calls were made. Calls count from 1.
#[derive(Drop)]
pub(crate) struct FailingCalls {
    failing: List<u64>,
    made: u64,
}

impl FailingCalls {
    ghost use Rattle.reo_io.specs.FailingCalls.{FailsNext, after_call, first_calls};

    /// No call was made yet.
    pub(crate) fn new(failing: List<u64>) -> Self
        ensures { result ≡ first_calls failing }
    {
        FailingCalls { failing, made: 0 }
    }

    /// Counts a call, and answers whether it is to fail.
    pub(crate) fn next_fails(&mut self) -> bool
        ensures answer { IsTrue result ↔ FailsNext self.old }
        ensures counted { self.new ≡ after_call self.old }
    {
        self.made = self.made.saturating_add(1);
        self.failing.as_slice().contains(&self.made)
    }
}
