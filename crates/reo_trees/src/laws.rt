//! Laws of circuit texts.
ghost use Rattle.std.specs.Prelude.{◌≡◌, ℕ, List};
ghost use Rattle.reo_trees.specs.declared.programs.Program.{Program};
ghost use Rattle.reo_trees.specs.declared.programs_two.AnyProgram.{AnyProgram};
ghost use Rattle.reo_trees.specs.Says.{SaysProgram};
ghost use Rattle.reo_trees.specs.SaysTwo.{SaysAny};

/// No text says two programs.
pub fn one_program()
    ensures { (text : List ℕ) (p q : Program) → SaysProgram text p → SaysProgram text q → p ≡ q }
{}

/// No text says two programs, of whichever versions.
pub fn one_program_of_any()
    ensures { (text : List ℕ) (p q : AnyProgram) → SaysAny text p → SaysAny text q → p ≡ q }
{}
