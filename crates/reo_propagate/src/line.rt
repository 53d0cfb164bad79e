//! A line of numbers: what came first is taken first.
ghost use Rattle.std.specs.Prelude.{◌≡◌, [], ◌∷◌, ◌++◌, IfOk, OnOk, OnErr, MatchOption};

use reo_values::NoMemory;
use std::alloc::Global;
use std::collections::VecDeque;
use std::marker::Model;

/// Numbers in a line. Contracts see a list.
#[derive(Drop)]
pub struct Line {
    numbers: VecDeque<usize>,
}

impl Model for Line {
    ghost use Rattle.std.specs.Prelude.{List, ℕ};

    ghost Value = { List ℕ };

    ghost view = { λ l. l.numbers.items };
}

impl Line {
    /// No number. This takes no memory.
    pub fn new(alloc: Global) -> Line
        ensures { result ≡ [] }
    {
        Line {
            numbers: VecDeque::new(alloc),
        }
    }

    /// One number more, at the end. After `NoMemory`, out of memory, the line is as it was.
    pub fn join(&mut self, number: usize) -> Result<(), NoMemory>
        ensures ok { OnOk result (self.new ≡ self.old ++ number ∷ []) }
        ensures err { OnErr result (self.new ≡ self.old) }
    {
        match self.numbers.push_back(number) {
            Ok(()) => Ok(()),
            Err(_) => Err(NoMemory),
        }
    }

    /// Takes the first number, if there is one.
    pub fn take_first(&mut self) -> Option<usize>
        ensures { MatchOption result ((self.old ≡ []) × (self.new ≡ []))
            (λ first. self.old ≡ first ∷ self.new) }
    {
        self.numbers.pop_front()
    }
}

/// These numbers in a line. `NoMemory` is out of memory.
pub(crate) fn line_of(alloc: Global, numbers: &[usize]) -> Result<Line, NoMemory>
    ensures { IfOk result (λ line. line ≡ numbers.now) }
{
    let mut line = Line::new(alloc);
    for number in numbers {
        line.join(*number)?;
    }
    Ok(line)
}
