//! The flags of values, made anew.
ghost use Rattle.std.specs.Prelude.{◌≡◌, ◌<◌, ◌+◌, ℕ, true, OnOk, length};
ghost use Rattle.reo_reach.specs.Supplied.{items_at, AreShort};
ghost use Rattle.reo_propagate.specs.Queues.{among};
ghost use Rattle.reo_search_tables.specs.Renewing.{AreRightAt, StaysBesides};

use reo_reach::Supply;
use reo_rows::{FLOWS, RowFlags};
use reo_values::NoMemory;
use std::alloc::Global;

/// Gives each value of some joints a flag anew. Other flags stay, also after `NoMemory`, which is
/// out of memory.
pub(crate) fn renew_values(
    alloc: Global,
    supply: &Supply,
    joints: &[usize],
    value: bool,
    flags: &mut RowFlags,
) -> Result<(), NoMemory>
    requires short { AreShort supply.now }
    requires joints { (j : ℕ) → among joints.now j ≡ true → j < length supply.now.items }
    requires one_each { length flags.old ≡ length supply.now.items }
    ensures stays { StaysBesides joints.now flags.old flags.new }
    ensures right { OnOk result (AreRightAt joints.now (length joints.now)
        (λ j row. length row ≡ length (items_at supply.now j) + 4) flags.new) }
{
    for joint in joints {
        let count = supply.items(*joint).len() + FLOWS;
        flags.renew(alloc, *joint, count, value)?;
    }
    Ok(())
}
