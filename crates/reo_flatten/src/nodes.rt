//! The own primitives and the joints of all nodes.
ghost use Rattle.std.specs.Prelude.{◌≡◌, ◌<◌, ◌+◌, ◌*◌, ◌^◌, ◌++◌, ℕ, List, [], length, replicate, IfOk, OnOk};
ghost use Rattle.std.specs.List.{flat_map};
ghost use Rattle.reo_flat.specs.Unfolding.{Placed};
ghost use Rattle.reo_flat.specs.Joints.{joints_of};
ghost use Rattle.reo_flat.specs.Flat.{own_kinds, joints_at, homes_at};
ghost use Rattle.reo_flatten.specs.NodeEnds.{AreEnds};

use crate::branches::{many, own_kinds};
use crate::ends::NodeEnds;
use crate::joints::joints_of;
use reo_kinds::Kind;
use reo_net_base::{End, Joint};
use reo_values::{List, NoMemory};
use std::alloc::Global;

/// Joints, and the number of the node of each.
#[derive(Drop)]
pub struct Wired {
    pub joints: List<Joint>,
    pub homes: List<u32>,
}

/// The own primitives of all nodes, at the end.
pub fn all_own(ends: &NodeEnds, kinds: &mut List<Kind>) -> Result<(), NoMemory>
    requires { length ends.now.outs ≡ length ends.now.ins }
    ensures { (names : List (List ℕ)) (placed : List Placed) → AreEnds names placed ends.now
        → OnOk result (kinds.new ≡ kinds.old ++ flat_map (own_kinds placed) names) }
{
    for node in 0..ends.ins.len() {
        let (ins, outs) = (ends.ins.at(node), ends.outs.at(node));
        own_kinds(ins.as_slice(), outs.as_slice(), kinds)?;
    }
    Ok(())
}

/// One number so many times, at the end.
fn fill(homes: &mut List<u32>, count: usize, home: u32) -> Result<(), NoMemory>
    ensures { OnOk result (homes.new ≡ homes.old ++ replicate count home) }
{
    for _ in 0..count {
        homes.push(home)?;
    }
    Ok(())
}

impl Wired {
    /// The joints of one node, whose own primitives begin at a number.
    fn add(&mut self, ins: &[End], outs: &[End], at: usize, home: u32) -> Result<(), NoMemory>
        requires { at + 1 < 2 ^ 64 }
        ensures joints { OnOk result (self.new.joints
            ≡ self.old.joints ++ joints_of ins.now outs.now at) }
        ensures homes { OnOk result (self.new.homes ≡ self.old.homes ++ replicate (length
            (joints_of ins.now outs.now at)) home) }
    {
        let before = self.joints.len();
        joints_of(ins, outs, at, &mut self.joints)?;
        let count = self.joints.len() - before;
        fill(&mut self.homes, count, home)?;
        Ok(())
    }
}

/// The joints of all nodes, whose own primitives begin at a number. `NoMemory`: out of memory.
pub fn all_joints(alloc: Global, ends: &NodeEnds, first: usize) -> Result<Wired, NoMemory>
    requires even { length ends.now.outs ≡ length ends.now.ins }
    requires few { length ends.now.ins < 2 ^ 32 }
    requires low { first < 2 ^ 32 }
    ensures joints { (names : List (List ℕ)) (placed : List Placed)
        → AreEnds names placed ends.now → IfOk result (λ made. made.joints
        ≡ joints_at placed first names) }
    ensures homes { (names : List (List ℕ)) (placed : List Placed) → AreEnds names placed ends.now
        → IfOk result (λ made. made.homes ≡ homes_at placed 0 first names) }
{
    let mut made = Wired {
        joints: List::new(alloc),
        homes: List::new(alloc),
    };
    let mut at = first;
    for node in 0..ends.ins.len() {
        let (ins, outs) = (ends.ins.at(node).as_slice(), ends.outs.at(node).as_slice());
        made.add(ins, outs, at, node as u32)?;
        at += many(ins) + many(outs);
    }
    Ok(made)
}
