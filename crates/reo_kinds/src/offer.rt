//! A writer's offer.
ghost use Rattle.std.specs.Prelude.{◌≡◌, true};
ghost use Rattle.reo_values.specs.Kind.{is_item};
ghost use Rattle.reo_kinds.specs.Kinds.{unoffered, offering};

use crate::kind::WriterPort;
use reo_values::Value;

/// Takes the offer back, if there is one.
pub fn withdraw(port: &mut WriterPort)
    ensures { port.new ≡ unoffered port.old }
{
    port.offer = None;
}

/// Makes an item of the port's type its offer.
pub fn place(port: &mut WriterPort, item: Value)
    requires { is_item item port.old.kindred ≡ true }
    ensures { port.new ≡ offering port.old item }
{
    port.offer = Some(item);
}
