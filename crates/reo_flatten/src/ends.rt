//! The ends at each node.
ghost use Rattle.std.specs.Prelude.{◌≡◌, ◌<◌, ℕ, List, [], length, replicate, IfOk, OnOk};
ghost use Rattle.reo_net_base.specs.declared.joint.End.{End as AnEnd};
ghost use Rattle.reo_values.specs.Valid.{AreDistinct};
ghost use Rattle.reo_kinds.specs.Kinds.{behaviour_of};
ghost use Rattle.reo_flat.specs.Unfolding.{Placed};
ghost use Rattle.reo_flatten.specs.NodeEnds.{placed_with, AddsEnd, AddsEnds, AreEnds};

use reo_kinds::Kind;
use reo_net_base::End;
use reo_rules::Names;
use reo_values::{Bytes, List, NoMemory};
use std::alloc::Global;

/// The ends that give items to each node, and those that take items from it.
#[derive(Drop)]
pub struct NodeEnds {
    pub ins: List<List<End>>,
    pub outs: List<List<End>>,
}

/// Whether items enter a primitive at an end.
fn takes_in(kind: &Kind, end: usize) -> bool
    ensures { result ≡ (behaviour_of kind.now).takes_in end }
{
    match kind {
        Kind::Writer(_) => false,
        Kind::Taker(_) | Kind::SyncDrain | Kind::AsyncDrain => true,
        Kind::Merger(branches) => end < branches.count,
        _ => end == 0,
    }
}

/// So many empty lists of ends.
fn no_ends(alloc: Global, count: usize) -> Result<List<List<End>>, NoMemory>
    ensures { IfOk result (λ made. made ≡ replicate count []) }
{
    let mut made = List::new(alloc);
    for _ in 0..count {
        made.push(List::new(alloc))?;
    }
    Ok(made)
}

impl NodeEnds {
    /// One end more at the node of a name, if there is one.
    fn add(&mut self, names: &Names, name: &Bytes, takes: bool, end: End) -> Result<(), NoMemory>
        requires distinct { AreDistinct names.now }
        requires ins { length self.old.ins ≡ length names.now }
        requires outs { length self.old.outs ≡ length names.now }
        ensures { OnOk result (AddsEnd names.now name.now takes end self.old self.new) }
    {
        match names.find(name.as_slice()) {
            Some(number) => {
                if takes {
                    self.outs.at_mut(number).push(end)?;
                    Ok(())
                } else {
                    self.ins.at_mut(number).push(end)?;
                    Ok(())
                }
            }
            None => Ok(()),
        }
    }

    /// The ends of one primitive more, at the nodes of these names.
    fn add_all(
        &mut self,
        names: &Names,
        primitive: usize,
        kind: &Kind,
        at: &[Bytes],
    ) -> Result<(), NoMemory>
        requires distinct { AreDistinct names.now }
        requires ins { length self.old.ins ≡ length names.now }
        requires outs { length self.old.outs ≡ length names.now }
        ensures { OnOk result (AddsEnds names.now primitive kind.now at.now self.old self.new) }
    {
        for end in 0..at.len() {
            let takes = takes_in(kind, end);
            self.add(names, &at[end], takes, End { primitive, end })?;
        }
        Ok(())
    }
}

/// The ends at each node of primitives that are placed at these nodes. `NoMemory`: out of memory.
pub fn ends_at_nodes(
    alloc: Global,
    nodes: &[Bytes],
    names: &Names,
    kinds: &[Kind],
    ends: &[List<Bytes>],
) -> Result<NodeEnds, NoMemory>
    requires distinct { AreDistinct names.now }
    requires names { names.now ≡ nodes.now }
    requires even { length ends.now ≡ length kinds.now }
    ensures { IfOk result (AreEnds names.now (placed_with kinds.now ends.now)) }
{
    let count = nodes.len();
    let mut made = NodeEnds {
        ins: no_ends(alloc, count)?,
        outs: no_ends(alloc, count)?,
    };
    for primitive in 0..kinds.len() {
        made.add_all(
            names,
            primitive,
            &kinds[primitive],
            ends[primitive].as_slice(),
        )?;
    }
    Ok(made)
}
