//! Laws of gates.
ghost use Rattle.reo_listing.specs.laws.Shapes.{KnotsStayWithShape};

/// The knots of a circuit are those of each circuit of its shape.
pub fn knots_stay_with_shape()
    ensures { KnotsStayWithShape }
{}
