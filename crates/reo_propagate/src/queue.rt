//! Sides that wait.
ghost use Rattle.std.specs.Prelude.{◌≡◌, ◌<◌, ℕ, [], OnOk, MatchOption, length, slice_index};
ghost use Rattle.reo_propagate.specs.Queues.{IsWoken, IsNext};

use crate::line::Line;
use reo_values::{List, NoMemory};

/// Which sides wait, and a line of them.
#[derive(Drop)]
pub struct WaitingSides {
    pub waits: List<bool>,
    pub line: Line,
}

impl WaitingSides {
    /// Lets a side wait. `NoMemory` is out of memory.
    pub fn wake(&mut self, side: usize) -> Result<(), NoMemory>
        requires { side < length self.old.waits }
        ensures { OnOk result (IsWoken self.old self.new side) }
    {
        if *self.waits.at(side) {
            return Ok(());
        }
        self.line.join(side)?;
        *self.waits.at_mut(side) = true;
        Ok(())
    }

    /// Takes the side that has waited longest, if one waits.
    pub fn next(&mut self) -> Option<usize>
        requires { (m : ℕ) → m < length self.old.line
            → slice_index self.old.line m < length self.old.waits }
        ensures { MatchOption result ((self.old.line ≡ []) × (self.new ≡ self.old))
            (IsNext self.old self.new) }
    {
        match self.line.take_first() {
            None => None,
            Some(side) => {
                *self.waits.at_mut(side) = false;
                Some(side)
            }
        }
    }
}
