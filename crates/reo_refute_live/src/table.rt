//! Tables of live values, one entry for each joint.
ghost use Rattle.std.specs.Prelude.{◌≡◌, ◌<◌, ◌&&◌, ◌||◌, ℕ, not, true, IfOk, length, replicate, slice_index_or, []};
ghost use Rattle.reo_joint_values.specs.declared.value.JointValue.{JointValue as Standing};
ghost use Rattle.reo_joint_values.specs.declared.value.JointValue.TheVariants.{Flow};
ghost use Rattle.reo_joint_values.specs.Values.{value_eq};
ghost use Rattle.reo_refute_base.specs.Items.{Lists};
ghost use Rattle.reo_refute_base.specs.Live.{all_live, without};
ghost use Rattle.reo_refute_live.specs.support.Families.{family_of, has, none_gone, AreLive};
ghost use Rattle.reo_refute_live.specs.Trail.{with_back};

use crate::support::LiveAt;
use reo_joint_values::JointValue;
use reo_values::{List, NoMemory, Value};
use std::alloc::Global;

/// So many flags, all set.
fn all_set(alloc: Global, count: usize) -> Result<List<bool>, NoMemory>
    ensures { IfOk result (λ flags. flags ≡ replicate count true) }
{
    match vec![in alloc; true; count] {
        Ok(flags) => Ok(List::from_vec(flags)),
        Err(_) => Err(NoMemory),
    }
}

/// The table in which all values are live.
pub(crate) fn all_values(alloc: Global, lists: &[List<Value>]) -> Result<List<LiveAt>, NoMemory>
    ensures live { IfOk result (AreLive lists.now) }
    ensures all { IfOk result (λ table. family_of table ≡ all_live lists.now) }
{
    let mut table = List::new(alloc);
    for list in lists {
        table.push(LiveAt {
            flows: all_set(alloc, list.len())?,
            rg: true,
            gr: true,
            gg: true,
            jam: true,
        })?;
    }
    Ok(table)
}

/// Whether a value is live. The value may be any.
pub(crate) fn is_live(table: &List<LiveAt>, joint: usize, value: JointValue) -> bool
    requires { joint < length table.now }
    ensures { result ≡ family_of table.now joint value }
{
    let live = table.at(joint);
    match value {
        JointValue::Flow(number) => {
            let number = number as usize;
            number < live.flows.len() && *live.flows.at(number)
        }
        JointValue::RG => live.rg,
        JointValue::GR => live.gr,
        JointValue::GG => live.gg,
        JointValue::Jam => live.jam,
    }
}

/// A live value of a joint goes.
fn clear_at(live: &mut LiveAt, value: JointValue)
    requires { has live.old value ≡ true }
    ensures flags { length live.new.flows ≡ length live.old.flows }
    ensures gone { (w : Standing) → has live.new w ≡ (has live.old w && not (value_eq w value)) }
{
    match value {
        JointValue::Flow(number) => *live.flows.at_mut(number as usize) = false,
        JointValue::RG => live.rg = false,
        JointValue::GR => live.gr = false,
        JointValue::GG => live.gg = false,
        JointValue::Jam => live.jam = false,
    }
}

/// A live value goes.
pub(crate) fn clear(table: &mut List<LiveAt>, joint: usize, value: JointValue)
    requires joint { joint < length table.old }
    requires live { family_of table.old joint value ≡ true }
    ensures live { (lists : Lists) → AreLive lists table.old → AreLive lists table.new }
    ensures gone { family_of table.new ≡ without (family_of table.old) joint value }
{
    clear_at(table.at_mut(joint), value);
}

/// A value of a joint comes back.
fn restore_at(live: &mut LiveAt, value: JointValue)
    requires { (n : ℕ) → value ≡ Flow n → n < length live.old.flows }
    ensures flags { length live.new.flows ≡ length live.old.flows }
    ensures back { (w : Standing) → has live.new w ≡ (has live.old w || value_eq w value) }
{
    match value {
        JointValue::Flow(number) => *live.flows.at_mut(number as usize) = true,
        JointValue::RG => live.rg = true,
        JointValue::GR => live.gr = true,
        JointValue::GG => live.gg = true,
        JointValue::Jam => live.jam = true,
    }
}

/// A value comes back.
pub(crate) fn restore(table: &mut List<LiveAt>, joint: usize, value: JointValue)
    requires joint { joint < length table.old }
    requires flag { (n : ℕ) → value ≡ Flow n
        → n < length (slice_index_or table.old joint none_gone).flows }
    ensures live { (lists : Lists) → AreLive lists table.old → AreLive lists table.new }
    ensures back { family_of table.new ≡ with_back (family_of table.old)
        (record { joint = joint; value = value }) }
{
    restore_at(table.at_mut(joint), value);
}
