//! The language of circuit texts of version 2.
use reo_grammar::Language;

/// The language of circuit texts of version 2.
pub struct CircuitsTwo;

impl Language for CircuitsTwo {
    ghost use Rattle.std.specs.Prelude.{refl};
    ghost use Rattle.reo_trees.specs.declared.programs_two.ProgramTwo.{ProgramTwo};
    ghost use Rattle.reo_trees.specs.Forms.{Rule as CircuitRule, tree_of as tree_of_rule};
    ghost use Rattle.reo_trees.specs.ProgramsTwo.{program_two};
    ghost use Rattle.reo_trees.specs.Rules.{circuit_rules};
    ghost use Rattle.reo_trees.specs.Table.{circuit_table};

    ghost Rule = { CircuitRule };

    ghost tree_of = { tree_of_rule };

    ghost Tree = { ProgramTwo };

    ghost rules = { circuit_rules };

    ghost form = { program_two };

    ghost table = { circuit_table };

    ghost productive = { refl };

    ghost sighted = { refl };
}
