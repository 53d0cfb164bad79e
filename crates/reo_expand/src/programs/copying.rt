//! One copy of a connector, as it is expanded.
ghost use Rattle.std.specs.Prelude.{◌≡◌, ◌≤◌, IfOk, flat_map};
ghost use Rattle.reo_trees.specs.declared.programs.Declaration.TheVariants as declarations;
ghost use Rattle.reo_expand.specs.base.Expansion.{connector_for};
ghost use Rattle.reo_expand.specs.base.Steps.{steps_in, two_in};
ghost use Rattle.reo_expand.specs.base.Judged.{IsWalked};
ghost use Rattle.reo_expand.specs.tables.Knows.{Knows};
ghost use Rattle.reo_expand.specs.programs.Noted.{instance_for};

use crate::base::{Bound, ExpandFault, Instance};
use crate::items::{Walk, copied_parameters};
use crate::parts::numbered_name;
use crate::tables::Firsts;
use crate::walk::items;
use reo_trees::{Connector, ConnectorTwo, Declaration, DeclarationTwo};
use reo_values::{Bytes, List, NoMemory};
use std::alloc::Global;

/// What a connector takes beside its name, its parameters and its items.
const PART: u64 = 256;

/// A number of a connector, with a value, and the name that it gives. `NoMemory` means out of
/// memory.
pub(crate) fn numbered_instance(
    alloc: Global,
    name: &Bytes,
    number: &Bytes,
    value: u16,
) -> Result<Instance, NoMemory>
    ensures { IfOk result (λ i. i ≡ instance_for name.now number.now value) }
{
    let name = numbered_name(alloc, name.as_slice(), value as i64)?;
    let number = number.copy(alloc)?;
    let mut bound = List::new(alloc);
    bound.push(Bound {
        name: number,
        value: value as i64,
    })?;
    Ok(Instance { name, bound })
}

/// The connector under a name, its items expanded with values. The first refusal that is met is
/// answered; `NoMemory` means out of memory, or of room.
pub(crate) fn copied(
    walk: &mut Walk,
    alloc: Global,
    firsts: &Firsts,
    before: &[DeclarationTwo],
    connector: &ConnectorTwo,
    instance: Instance,
) -> Result<Declaration, ExpandFault>
    requires small { walk.old.count ≤ 65536 }
    requires known { Knows before.now firsts.now }
    ensures walked { IsWalked walk.old.count (steps_in (flat_map two_in before.now) instance.bound
        connector.now.items) walk.new.count result }
    ensures made { IfOk result (λ d. d ≡ declarations.Made (connector_for connector.now instance)) }
    ensures small { walk.new.count ≤ 65536 }
{
    walk.room.take(PART)?;
    let parameters = copied_parameters(alloc, &mut walk.room, &connector.parameters)?;
    let Instance { name, mut bound } = instance;
    let mut made = List::new(alloc);
    let row = connector.items.as_slice();
    items(walk, alloc, firsts, before, &mut bound, row, &mut made)?;
    Ok(Declaration::Made(Connector {
        line: connector.line,
        name,
        parameters,
        items: made,
    }))
}
