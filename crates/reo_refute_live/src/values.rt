//! The values that are live at a joint, in their order.
ghost use Rattle.std.specs.Prelude.{◌||◌, ◌≡◌, ◌≢◌, ◌<◌, ◌^◌, ◌++◌, ◌∷◌, ◌↔◌, [], ℕ, true, false, IfOk, OnOk, IsTrue, length, slice_index_or, cond};
ghost use Rattle.reo_refute_base.specs.Items.{Lists};
ghost use Rattle.reo_refute_base.specs.Live.{live_at};
ghost use Rattle.reo_refute_live.specs.support.Families.{family_of, none_gone, AreLive};
ghost use Rattle.reo_refute_live.specs.Tables.{live_flows};

use crate::support::LiveAt;
use reo_joint_values::JointValue;
use reo_values::{List, NoMemory};
use std::alloc::Global;

/// Adds a value where it is live.
fn add_if(values: &mut List<JointValue>, value: JointValue, live: bool) -> Result<(), NoMemory>
    ensures { OnOk result (values.new ≡ values.old ++ cond live (value ∷ []) []) }
{
    if live { values.push(value) } else { Ok(()) }
}

/// The flows that are live.
fn add_flows(values: &mut List<JointValue>, flows: &[bool]) -> Result<(), NoMemory>
    requires few { length flows.now < 2 ^ 32 }
    ensures { OnOk result (values.new ≡ values.old ++ live_flows flows.now (length flows.now)) }
{
    for number in 0..flows.len() {
        add_if(values, JointValue::Flow(number as u32), flows[number])?;
    }
    Ok(())
}

/// The values that are live at a joint, in their order. `NoMemory` is out of memory.
pub(crate) fn live_values(
    alloc: Global,
    table: &List<LiveAt>,
    joint: usize,
) -> Result<List<JointValue>, NoMemory>
    requires joint { joint < length table.now }
    requires few { length (slice_index_or table.now joint none_gone).flows < 2 ^ 32 }
    ensures { IfOk result (λ values. (lists : Lists) → AreLive lists table.now
        → values ≡ live_at lists (family_of table.now) joint) }
{
    let live = table.at(joint);
    let mut values = List::new(alloc);
    add_flows(&mut values, live.flows.as_slice())?;
    add_if(&mut values, JointValue::RG, live.rg)?;
    add_if(&mut values, JointValue::GR, live.gr)?;
    add_if(&mut values, JointValue::GG, live.gg)?;
    add_if(&mut values, JointValue::Jam, live.jam)?;
    Ok(values)
}

/// Whether some flag is set.
fn has_set(flags: &[bool]) -> bool
    ensures { IsTrue result ↔ ((n : ℕ) × (slice_index_or flags.now n false ≡ true)) }
{
    for number in 0..flags.len() {
        if flags[number] {
            return true;
        }
    }
    false
}

/// Whether some value of a joint is live, where it is known whether some flow is.
fn has_any(live: &LiveAt, flow: bool) -> bool
    ensures { result ≡ (live.now.rg || live.now.gr || live.now.gg || live.now.jam || flow) }
{
    live.rg || live.gr || live.gg || live.jam || flow
}

/// Whether some value is live at a joint.
pub(crate) fn has_live(table: &List<LiveAt>, joint: usize) -> bool
    requires { joint < length table.now }
    ensures { (lists : Lists) → AreLive lists table.now
        → IsTrue result ↔ (live_at lists (family_of table.now) joint ≢ []) }
{
    let live = table.at(joint);
    has_any(live, has_set(live.flows.as_slice()))
}
