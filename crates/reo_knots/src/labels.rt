//! Labels of sides, and the sides of each label.
ghost use Rattle.std.specs.Prelude.{◌≡◌, ◌≢◌, ◌↔◌, ◌<◌, ◌++◌, [], ℕ, IsTrue, IfOk, OnOk, Contains, length, slice_index, slice_index_or, slice_set};
ghost use Rattle.reo_net_laws.specs.KnotLabels.{AreOwn, AreOwnMembers, AreMembers, AreRelabelled, AreMerged, IsWritten};

use reo_values::{List, NoMemory};
use std::alloc::Global;
use std::mem;

/// A label for each side, and the sides that have it for each label.
#[derive(Drop)]
pub(crate) struct Labels {
    /// The label of each side: the number of some side.
    pub(crate) labels: Vec<usize>,
    /// The sides of each label.
    pub(crate) members: Vec<List<usize>>,
}

/// Each side as its own label.
fn own_labels(alloc: Global, count: usize) -> Result<Vec<usize>, NoMemory>
    ensures { IfOk result (λ labels. AreOwn labels.items count) }
{
    let mut labels = List::new(alloc);
    for side in 0..count {
        labels.push(side)?;
    }
    Ok(labels.into_vec())
}

/// A list of one side.
fn one_member(alloc: Global, side: usize) -> Result<List<usize>, NoMemory>
    ensures { IfOk result (λ sides. (s : ℕ) → Contains sides s ↔ (s ≡ side)) }
{
    let mut sides = List::new(alloc);
    sides.push(side)?;
    Ok(sides)
}

/// Each side alone.
fn own_members(alloc: Global, count: usize) -> Result<Vec<List<usize>>, NoMemory>
    ensures { IfOk result (λ members. AreOwnMembers members.items count) }
{
    let mut members = List::new(alloc);
    for side in 0..count {
        let sides = one_member(alloc, side)?;
        members.push(sides)?;
    }
    Ok(members.into_vec())
}

/// Gives some sides a label.
fn relabel(labels: &mut Vec<usize>, sides: &[usize], label: usize)
    requires { (s : ℕ) → Contains sides.now s → s < length labels.old.items }
    ensures { IsWritten labels.old.items labels.new.items sides.now label }
{
    for side in sides.iter() {
        labels[*side] = label;
    }
}

/// Moves the sides of a label to those of another.
fn move_members(
    alloc: Global,
    members: &mut Vec<List<usize>>,
    from: usize,
    to: usize,
) -> Result<(), NoMemory>
    requires from { from < length members.old.items }
    requires to { to < length members.old.items }
    requires apart { from ≢ to }
    ensures { let old = members.old.items in
        let both = slice_index_or old to [] ++ slice_index_or old from [] in
        OnOk result (members.new.items ≡ slice_set (slice_set old from []) to both) }
{
    let moved = mem::replace(&mut members[from], List::new(alloc));
    let others = &mut members[to];
    others.append(moved)
}

/// Each label that is the one becomes the other.
fn rename(alloc: Global, all: &mut Labels, from: usize, to: usize) -> Result<(), NoMemory>
    requires from { from < length all.old.labels.items }
    requires to { to < length all.old.labels.items }
    requires apart { from ≢ to }
    requires members { AreMembers all.old.labels.items all.old.members.items }
    ensures members { OnOk result (AreMembers all.new.labels.items all.new.members.items) }
    ensures labels { OnOk result (AreRelabelled all.old.labels.items all.new.labels.items from to) }
{
    relabel(&mut all.labels, all.members[from].as_slice(), to);
    move_members(alloc, &mut all.members, from, to)
}

/// Makes one label of two: the one with fewer sides becomes the other.
fn merge(alloc: Global, all: &mut Labels, one: usize, other: usize) -> Result<(), NoMemory>
    requires one { one < length all.old.labels.items }
    requires other { other < length all.old.labels.items }
    requires apart { one ≢ other }
    requires members { AreMembers all.old.labels.items all.old.members.items }
    ensures members { OnOk result (AreMembers all.new.labels.items all.new.members.items) }
    ensures labels { OnOk result (AreMerged all.old.labels.items all.new.labels.items one other) }
{
    if all.members[one].len() < all.members[other].len() {
        rename(alloc, all, one, other)
    } else {
        rename(alloc, all, other, one)
    }
}

/// Gives two sides one label. Says whether they had one before.
pub(crate) fn join(
    alloc: Global,
    all: &mut Labels,
    side: usize,
    other: usize,
) -> Result<bool, NoMemory>
    requires side { side < length all.old.labels.items }
    requires other { other < length all.old.labels.items }
    requires members { AreMembers all.old.labels.items all.old.members.items }
    ensures members { OnOk result (AreMembers all.new.labels.items all.new.members.items) }
    ensures labels { let old = all.old.labels.items in let new = all.new.labels.items in
        OnOk result (AreMerged old new (slice_index old side) (slice_index old other)) }
    ensures before { let old = all.old.labels.items in
        IfOk result (λ before. IsTrue before ↔ (slice_index old side ≡ slice_index old other)) }
{
    let one = all.labels[side];
    let two = all.labels[other];
    if one == two {
        return Ok(true);
    }
    merge(alloc, all, one, two)?;
    Ok(false)
}

/// Each side with a label of its own.
pub(crate) fn apart(alloc: Global, count: usize) -> Result<Labels, NoMemory>
    ensures labels { IfOk result (λ all. AreOwn all.labels.items count) }
    ensures members { IfOk result (λ all. AreMembers all.labels.items all.members.items) }
{
    let labels = own_labels(alloc, count)?;
    let members = own_members(alloc, count)?;
    Ok(Labels { labels, members })
}
