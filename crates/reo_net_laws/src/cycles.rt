//! Directed cycles of sides.
ghost use Rattle.reo_net_laws.specs.Cycles.{OrderWithoutCycle};

use reo_net_base::{order_exists, order_has_no_cycle};

/// No directed cycle of sides exists exactly where the joints have an order.
pub fn order_without_cycle()
    ensures { OrderWithoutCycle }
{
    order_exists();
    order_has_no_cycle();
}
