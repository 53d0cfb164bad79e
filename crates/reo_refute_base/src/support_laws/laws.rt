//! Laws of support.
ghost use Rattle.reo_refute_base.specs.support_laws.Rows.{SupportIsByRows};

/// A live value at a joint has support at a side exactly where some allowed row of the side works
/// with what is live when of the joint's values this one alone is.
pub fn support_is_by_rows()
    ensures { SupportIsByRows }
{}
