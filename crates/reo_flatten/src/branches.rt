//! A node's merger and replicator.
ghost use Rattle.std.specs.Prelude.{◌≡◌, ◌++◌, length, OnOk};
ghost use Rattle.reo_rules.specs.Lists.{where_true};
ghost use Rattle.reo_kinds.specs.declared.kind.Kind.TheVariants as primitives;
ghost use Rattle.reo_flat.specs.Joints.{many, is_many};
ghost use Rattle.reo_flat.specs.Flat.{branched};
ghost use Rattle.reo_flatten.specs.NodeParts.{own};

use reo_kinds::{Branches, Kind};
use reo_net_base::End;
use reo_values::{List, NoMemory};

/// A merger of so many inputs.
fn merger(count: usize) -> Kind
    ensures { result ≡ branched primitives.Merger count }
{
    if 2 <= count && count <= 8192 {
        Kind::Merger(Branches::new(count))
    } else {
        Kind::Sync
    }
}

/// A replicator of so many outputs.
fn replicator(count: usize) -> Kind
    ensures { result ≡ branched primitives.Replicator count }
{
    if 2 <= count && count <= 8192 {
        Kind::Replicator(Branches::new(count))
    } else {
        Kind::Sync
    }
}

/// How many primitives of its own a node has on a side with these ends: one where there are two or
/// more.
pub fn many(ends: &[End]) -> usize
    ensures { result ≡ many ends.now }
{
    if 2 <= ends.len() { 1 } else { 0 }
}

/// A node's merger, at the end, where it has one.
fn own_merger(ins: &[End], kinds: &mut List<Kind>) -> Result<(), NoMemory>
    ensures { OnOk result (kinds.new ≡ kinds.old ++ where_true (is_many ins.now)
        (branched primitives.Merger (length ins.now))) }
{
    if 2 <= ins.len() {
        kinds.push(merger(ins.len()))?;
        Ok(())
    } else {
        Ok(())
    }
}

/// A node's replicator, at the end, where it has one.
fn own_replicator(outs: &[End], kinds: &mut List<Kind>) -> Result<(), NoMemory>
    ensures { OnOk result (kinds.new ≡ kinds.old ++ where_true (is_many outs.now)
        (branched primitives.Replicator (length outs.now))) }
{
    if 2 <= outs.len() {
        kinds.push(replicator(outs.len()))?;
        Ok(())
    } else {
        Ok(())
    }
}

/// A node's own primitives, at the end: its merger, and then its replicator.
pub fn own_kinds(ins: &[End], outs: &[End], kinds: &mut List<Kind>) -> Result<(), NoMemory>
    ensures { OnOk result (kinds.new ≡ kinds.old ++ own ins.now outs.now) }
{
    own_merger(ins, kinds)?;
    own_replicator(outs, kinds)?;
    Ok(())
}
