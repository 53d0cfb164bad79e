//! The rules one after another: the first break of the first broken rule.
ghost use Rattle.std.specs.Prelude.{◌++◌};
ghost use Rattle.reo_rules.specs.Arity.{arity};
ghost use Rattle.reo_rules.specs.Direction.{direction};
ghost use Rattle.reo_rules.specs.Dangling.{dangling};
ghost use Rattle.reo_rules.specs.Mistyped.{mistyped};
ghost use Rattle.reo_rules.specs.Ranges.{out_of_range};
ghost use Rattle.reo_rules.specs.Rules.{KeepsNames, rule_breaks};
ghost use Rattle.reo_rules.specs.Judged.{IsJudged};

use reo_rules::FlatFault;
use reo_rules_names::{judge_arity, judge_dangling, judge_direction, judge_twice, judge_unknown};
use reo_rules_types::{judge_mistyped, judge_range};
use reo_trees::Program;
use std::alloc::Global;

/// The rules on uses and on ends.
fn judge_uses(alloc: Global, program: &Program) -> Result<(), FlatFault>
    ensures { IsJudged (arity program.now.declarations ++ (direction program.now.declarations
        ++ dangling program.now.declarations)) result }
{
    judge_arity(alloc, program)?;
    judge_direction(alloc, program)?;
    judge_dangling(alloc, program)
}

/// The rules on types, and those after them.
fn judge_types(alloc: Global, program: &Program) -> Result<(), FlatFault>
    requires { KeepsNames program.now.declarations }
    ensures { IsJudged (mistyped program.now.declarations
        ++ (out_of_range program.now.declarations
        ++ (arity program.now.declarations ++ (direction program.now.declarations
        ++ dangling program.now.declarations)))) result }
{
    judge_mistyped(alloc, program)?;
    judge_range(alloc, program)?;
    judge_uses(alloc, program)
}

/// Whether the program keeps the rules on names, types, bounds, uses and ends. They are judged in
/// this order, each over the whole program: names that stand twice (`Twice`), names not declared
/// before their place (`Unknown`), items whose types do not fit (`Mistyped`), types and items out
/// of bounds (`Range`), uses with another number of arguments (`Arity`), ends against their
/// direction (`Direction`), nodes and parameters that lack an end (`Dangling`). The fault is the
/// first break in the text of the first rule that is broken, or `NoMemory`, out of memory.
pub fn judge(alloc: Global, program: &Program) -> Result<(), FlatFault>
    ensures { IsJudged (rule_breaks program.now.declarations) result }
{
    judge_twice(alloc, program)?;
    judge_unknown(alloc, program)?;
    judge_types(alloc, program)
}
