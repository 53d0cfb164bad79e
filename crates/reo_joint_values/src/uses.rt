//! Use of values, and narrowing.
ghost use Rattle.reo_joint_values.specs.Uses.{UseIsByRows, ThinningKeepsUse, NarrowedIsGreatest};

/// A value of a family is used at a side exactly where some row works with which the value goes.
pub fn use_is_by_rows()
    ensures { UseIsByRows }
{}

/// Where at a side only what is not used there goes, the same values are used.
pub fn thinning_keeps_use()
    ensures { ThinningKeepsUse }
{}

/// A supported family out of which no value of a supported family has gone is the greatest.
pub fn narrowed_is_greatest()
    ensures { NarrowedIsGreatest }
{}
