//! What is live in the open branches of a log.
ghost use Rattle.std.specs.Prelude.{◌≡◌, ◌≢◌, ◌<◌, ◌↔◌, ◌∷◌, ◌++◌, [], true, false, IfOk, OnOk, IsTrue, length, cond};
ghost use Rattle.reo_refute_base.specs.Live.{all_live, live_at, without};
ghost use Rattle.reo_refute_base.specs.Steps.{branches};
ghost use Rattle.reo_refute_live.specs.support.Families.{family_of};
ghost use Rattle.reo_refute_live.specs.OpenBranch.{open_in, still_open, IsOpen, IsClosed, AreSmall};

use crate::support::LiveAt;
use crate::table::{all_values, is_live};
use crate::trail::{Gone, come_back, hold, let_go};
use crate::values::{has_live, live_values};
use reo_joint_values::JointValue;
use reo_values::{List, NoMemory, Value};
use std::alloc::Global;

/// A split with the values whose branches are still to come.
#[derive(Drop)]
pub struct Split {
    /// How many values were gone at the split.
    pub gone: usize,
    /// The joint.
    pub joint: usize,
    /// The values that were live there, in their order.
    pub values: List<JointValue>,
    /// How many of them have had their branches.
    pub next: usize,
}

/// What is live in the present branch, the values that went on the way to it, and the splits in
/// which it stands, the outermost first. What went since a split comes back when its next branch
/// begins, so that no split keeps a table of its own.
#[derive(Drop)]
pub struct OpenBranch {
    /// What is live in the present branch.
    pub table: List<LiveAt>,
    /// The values that went, in their order.
    pub gone: List<Gone>,
    /// The splits.
    pub splits: List<Split>,
}

impl OpenBranch {
    /// One branch, in which all values are live. `NoMemory` is out of memory.
    pub fn new(alloc: Global, lists: &[List<Value>]) -> Result<OpenBranch, NoMemory>
        ensures open { IfOk result (IsOpen lists.now) }
        ensures closed { IfOk result (IsClosed lists.now) }
        ensures all { IfOk result (λ live. open_in live ≡ all_live lists.now ∷ []) }
    {
        let table = all_values(alloc, lists)?;
        Ok(OpenBranch {
            table,
            gone: List::new(alloc),
            splits: List::new(alloc),
        })
    }

    /// Once no branch is to come, one begins in which all values are live. This takes no memory.
    pub fn restart(&mut self, lists: &[List<Value>])
        requires { IsClosed lists.now self.old }
        ensures open { IsOpen lists.now self.new }
        ensures all { open_in self.new ≡ all_live lists.now ∷ [] }
    {
        come_back(lists, &mut self.table, &mut self.gone, 0);
    }

    /// What is live in the present branch, one entry for each joint.
    pub fn table(&self) -> &[LiveAt]
        ensures { result.now ≡ self.now.table }
    {
        self.table.as_slice()
    }

    /// Whether a value is live in the present branch. The value may be any.
    pub fn is_live(&self, lists: &[List<Value>], joint: usize, value: JointValue) -> bool
        requires open { IsOpen lists.now self.now }
        requires joint { joint < length lists.now }
        ensures { result ≡ family_of self.now.table joint value }
    {
        let _ = lists;
        is_live(&self.table, joint, value)
    }

    /// Whether some value is live at a joint in the present branch.
    pub fn has_live(&self, lists: &[List<Value>], joint: usize) -> bool
        requires open { IsOpen lists.now self.now }
        requires joint { joint < length lists.now }
        ensures { IsTrue result ↔ (live_at lists.now (family_of self.now.table) joint ≢ []) }
    {
        let _ = lists;
        has_live(&self.table, joint)
    }

    /// A value that is live in the present branch goes. `NoMemory` is out of memory.
    pub fn clear(
        &mut self,
        lists: &[List<Value>],
        joint: usize,
        value: JointValue,
    ) -> Result<(), NoMemory>
        requires open { IsOpen lists.now self.old }
        requires joint { joint < length lists.now }
        requires live { family_of self.old.table joint value ≡ true }
        ensures open { OnOk result (IsOpen lists.now self.new) }
        ensures gone { OnOk result
            (family_of self.new.table ≡ without (family_of self.old.table) joint value) }
        ensures rest { OnOk result (still_open self.new ≡ still_open self.old) }
    {
        let_go(lists, &mut self.table, &mut self.gone, joint, value)?;
        Ok(())
    }

    /// In place of the present branch there is one for each value that is live at a joint, and the
    /// first of them is the present one. `NoMemory` is out of memory.
    pub fn split(
        &mut self,
        alloc: Global,
        lists: &[List<Value>],
        joint: usize,
    ) -> Result<(), NoMemory>
        requires open { IsOpen lists.now self.old }
        requires small { AreSmall lists.now }
        requires joint { joint < length lists.now }
        requires some { live_at lists.now (family_of self.old.table) joint ≢ [] }
        ensures open { OnOk result (IsOpen lists.now self.new) }
        ensures branches { OnOk result (open_in self.new
            ≡ branches lists.now (family_of self.old.table) joint ++ still_open self.old) }
    {
        let values = live_values(alloc, &self.table, joint)?;
        let gone = self.gone.len();
        let first = *values.at(0);
        hold(
            lists,
            &mut self.table,
            &mut self.gone,
            joint,
            &values,
            first,
        )?;
        self.splits.push(Split {
            gone,
            joint,
            values,
            next: 1,
        })?;
        Ok(())
    }

    /// The present branch is closed: whether another one is the present one now. `NoMemory` is out
    /// of memory.
    pub fn close(&mut self, lists: &[List<Value>]) -> Result<bool, NoMemory>
        requires { IsOpen lists.now self.old }
        ensures open { IfOk result (λ more. IsTrue more → IsOpen lists.now self.new) }
        ensures closed { IfOk result (λ more. more ≡ false → IsClosed lists.now self.new) }
        ensures next { IfOk result (λ more. still_open self.old ≡ cond more (open_in self.new) []) }
    {
        while let Some(mut split) = self.splits.pop() {
            if split.next < split.values.len() {
                let value = *split.values.at(split.next);
                come_back(lists, &mut self.table, &mut self.gone, split.gone);
                hold(
                    lists,
                    &mut self.table,
                    &mut self.gone,
                    split.joint,
                    &split.values,
                    value,
                )?;
                split.next += 1;
                self.splits.push(split)?;
                return Ok(true);
            }
        }
        Ok(false)
    }
}
