//! Where the sides of primitives stand among all sides.
ghost use Rattle.std.specs.Prelude.{◌≡◌, ◌+◌, ◌<◌, ◌*◌, ◌^◌, ◌++◌, IfOk, OnOk, map, length};
ghost use Rattle.std.specs.List.{range_with_len};
ghost use Rattle.reo_net_circuit.specs.Layout.{IsLaidOut, side_owner_at};

use reo_net_base::Primitive;
use reo_values::{List, NoMemory};
use std::alloc::Global;

/// A side of a primitive: both are numbers from 0.
#[derive(Clone, Copy, Debug, PartialEq, Eq)]
pub struct SideOwner {
    pub primitive: usize,
    pub side: usize,
}

/// The first side of each primitive, and the primitive of each side.
#[derive(Drop)]
pub struct Layout {
    pub firsts: List<usize>,
    pub owners: List<SideOwner>,
}

/// Adds the sides of a primitive to the table of owners.
fn add_owners(owners: &mut List<SideOwner>, primitive: usize, sides: usize) -> Result<(), NoMemory>
    ensures { OnOk result
        (owners.new ≡ owners.old ++ map (side_owner_at primitive) (range_with_len 0 sides)) }
{
    for side in 0..sides {
        owners.push(SideOwner { primitive, side })?;
    }
    Ok(())
}

/// Where the sides of each primitive stand, and whose each side is.
pub fn lay_out<P: Primitive>(alloc: Global, primitives: &[P]) -> Result<Layout, NoMemory>
    requires { 2 * length primitives.now < 2 ^ 62 }
    ensures { IfOk result
        (λ layout. IsLaidOut (map P.behaviour primitives.now) layout.firsts layout.owners) }
{
    let mut firsts = List::new(alloc);
    let mut owners = List::new(alloc);
    for primitive in 0..primitives.len() {
        firsts.push(owners.len())?;
        add_owners(&mut owners, primitive, primitives[primitive].sides())?;
    }
    Ok(Layout { firsts, owners })
}
