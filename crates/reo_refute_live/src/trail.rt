//! Values that go, are noted, and come back.
ghost use Rattle.std.specs.Prelude.{◌≡◌, ◌≤◌, ◌<◌, ◌&&◌, not, true, false, OnOk, length};
ghost use Rattle.reo_joint_values.specs.Values.{value_eq};
ghost use Rattle.reo_refute_base.specs.Live.{alone, live_at, without};
ghost use Rattle.reo_refute_live.specs.support.Families.{family_of};
ghost use Rattle.reo_refute_live.specs.Trail.{AreKept, HasLost};

use crate::support::LiveAt;
use crate::table::{clear, is_live, restore};
use reo_joint_values::JointValue;
use reo_values::{List, NoMemory, Value};

/// A value that is live no longer, at its joint.
#[derive(Clone, Copy)]
pub struct Gone {
    pub joint: usize,
    pub value: JointValue,
}

/// A live value goes, and is noted. After `NoMemory`, out of memory, all is as it was.
pub(crate) fn let_go(
    lists: &[List<Value>],
    table: &mut List<LiveAt>,
    gone: &mut List<Gone>,
    joint: usize,
    value: JointValue,
) -> Result<(), NoMemory>
    requires kept { AreKept lists.now table.old gone.old }
    requires joint { joint < length lists.now }
    requires live { family_of table.old joint value ≡ true }
    ensures kept { OnOk result (AreKept lists.now table.new gone.new) }
    ensures lost { OnOk result
        (HasLost (family_of table.old) gone.old (family_of table.new) gone.new) }
    ensures gone { OnOk result (family_of table.new ≡ without (family_of table.old) joint value) }
{
    let _ = lists;
    gone.push(Gone { joint, value })?;
    clear(table, joint, value);
    Ok(())
}

/// Values come back, the last that went first, until so many are gone. This takes no memory.
pub(crate) fn come_back(
    lists: &[List<Value>],
    table: &mut List<LiveAt>,
    gone: &mut List<Gone>,
    count: usize,
)
    requires kept { AreKept lists.now table.old gone.old }
    requires count { count ≤ length gone.old }
    ensures kept { AreKept lists.now table.new gone.new }
    ensures count { length gone.new ≡ count }
    ensures lost { HasLost (family_of table.new) gone.new (family_of table.old) gone.old }
{
    let _ = lists;
    while count < gone.len() {
        match gone.pop() {
            Some(last) => restore(table, last.joint, last.value),
            None => unreachable!(),
        }
    }
}

/// Whether a value is live and is not the one that stays.
fn goes(table: &List<LiveAt>, joint: usize, value: JointValue, keep: JointValue) -> bool
    requires { joint < length table.now }
    ensures { result ≡ (family_of table.now joint value && not (value_eq value keep)) }
{
    is_live(table, joint, value) && value != keep
}

/// A value goes, if it is live and is not the one that stays. `NoMemory` is out of memory.
fn pass(
    lists: &[List<Value>],
    table: &mut List<LiveAt>,
    gone: &mut List<Gone>,
    joint: usize,
    value: JointValue,
    keep: JointValue,
) -> Result<(), NoMemory>
    requires kept { AreKept lists.now table.old gone.old }
    requires joint { joint < length lists.now }
    ensures kept { OnOk result (AreKept lists.now table.new gone.new) }
    ensures lost { OnOk result
        (HasLost (family_of table.old) gone.old (family_of table.new) gone.new) }
    ensures gone { OnOk result
        ((family_of table.old joint value && not (value_eq value keep)) ≡ true
        → family_of table.new ≡ without (family_of table.old) joint value) }
    ensures stays { OnOk result
        ((family_of table.old joint value && not (value_eq value keep)) ≡ false
        → family_of table.new ≡ family_of table.old) }
{
    if goes(table, joint, value, keep) {
        let_go(lists, table, gone, joint, value)?;
    }
    Ok(())
}

/// Of the values of a joint, which are those that are live there, all go but one. `NoMemory` is out
/// of memory.
pub(crate) fn hold(
    lists: &[List<Value>],
    table: &mut List<LiveAt>,
    gone: &mut List<Gone>,
    joint: usize,
    values: &List<JointValue>,
    keep: JointValue,
) -> Result<(), NoMemory>
    requires kept { AreKept lists.now table.old gone.old }
    requires joint { joint < length lists.now }
    requires values { values.now ≡ live_at lists.now (family_of table.old) joint }
    ensures kept { OnOk result (AreKept lists.now table.new gone.new) }
    ensures lost { OnOk result
        (HasLost (family_of table.old) gone.old (family_of table.new) gone.new) }
    ensures alone { OnOk result
        (family_of table.new ≡ alone (family_of table.old) joint keep) }
{
    for index in 0..values.len() {
        let value = *values.at(index);
        pass(lists, table, gone, joint, value, keep)?;
    }
    Ok(())
}
