//! The expansion of a program.
ghost use Rattle.std.specs.Prelude.{MatchResult};
ghost use Rattle.reo_expand.specs.base.Steps.{IsExpanded, IsUnexpanded};

use crate::base::ExpandFault;
use crate::programs::behind::Behind;
use crate::programs::turned::turned;
use crate::tables::Firsts;
use reo_trees::{Program, ProgramTwo};
use std::alloc::Global;

/// The program that a program of version 2 stands for. Otherwise the first refusal that is met,
/// where connectors are walked from the last to the first, each for its numbers in increasing
/// order, and items in the order in which they are expanded. `NoMemory` means out of memory, or
/// that some 64 megabytes of trees and names would be copied or looked up, of which the numbers
/// of one connector are 32 kilobytes or more.
pub fn expand(alloc: Global, program: &ProgramTwo) -> Result<Program, ExpandFault>
    ensures { MatchResult result (IsExpanded program.now) (IsUnexpanded program.now) }
{
    let declarations = program.declarations.as_slice();
    let firsts = Firsts::new(alloc, declarations)?;
    let mut behind = Behind::new(alloc, declarations);
    let mut place = declarations.len();
    while 0 < place {
        place -= 1;
        behind.add(alloc, &firsts, declarations, place)?;
    }
    Ok(Program {
        declarations: turned(behind.made),
    })
}
