ghost use Rattle.reo_net_base.specs.order.Arrows.{CycleBySides, OrderExists, OrderHasNoCycle};

/// An arrow leads back to itself exactly where it goes from a side of a directed cycle of sides to
/// the next.
pub fn cycle_by_sides()
    ensures { CycleBySides }
{}

/// Where all arrows stand in an order there is no directed cycle.
pub fn order_has_no_cycle()
    ensures { OrderHasNoCycle }
{}

/// Arrows of which none lies on a directed cycle stand in some order.
pub fn order_exists()
    ensures { OrderExists }
{}
