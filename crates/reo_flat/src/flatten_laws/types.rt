//! Types that lie inside others.
ghost use Rattle.reo_flat.specs.flatten_laws.Inside.{InsideIsTested};

/// By the rule of bounds a type is found inside another exactly where it lies inside it.
pub fn inside_is_tested()
    ensures { InsideIsTested }
{}
