//! The canonical text of a program of either version.
ghost use Rattle.std.specs.Prelude.{◌≡◌, IfOk};
ghost use Rattle.reo_syntax.specs.two.Canonical.{canonical_text_two};
ghost use Rattle.reo_expand.specs.base.Lifted.{lifted};
ghost use Rattle.reo_upgrade.specs.Upgraded.{upgraded, canonical_text_any};

use reo_expand::lift;
use reo_syntax::{print, print_two};
use reo_trees::{AnyProgram, Program};
use reo_values::{Bytes, NoMemory};
use std::alloc::Global;

/// The canonical text of a program, of its own version. `NoMemory` means out of memory.
pub fn print_any(alloc: Global, program: &AnyProgram) -> Result<Bytes, NoMemory>
    ensures { IfOk result (λ text. text ≡ canonical_text_any program.now) }
{
    match program {
        AnyProgram::One(program) => print(alloc, program),
        AnyProgram::Two(program) => print_two(alloc, program),
    }
}

fn upgrade_first(alloc: Global, program: &Program) -> Result<Bytes, NoMemory>
    ensures { IfOk result (λ text. text ≡ canonical_text_two (lifted program.now)) }
{
    let lifted = lift(alloc, program)?;
    print_two(alloc, &lifted)
}

/// The canonical text of version 2 of a program, which is lifted where it is of version 1.
/// `NoMemory` means out of memory.
pub fn upgrade(alloc: Global, program: &AnyProgram) -> Result<Bytes, NoMemory>
    ensures { IfOk result (λ text. text ≡ canonical_text_two (upgraded program.now)) }
{
    match program {
        AnyProgram::One(program) => upgrade_first(alloc, program),
        AnyProgram::Two(program) => print_two(alloc, program),
    }
}
