//! The walk of items, as they are expanded.
ghost use Rattle.std.specs.Prelude.{◌≡◌, ◌≤◌, ◌++◌, ◌∷◌, [], pos, ◌+ℤ◌, OnOk, List, flat_map};
ghost use Rattle.reo_expand.specs.base.Expansion.{items_of, items_in, with_bound};
ghost use Rattle.reo_expand.specs.base.Steps.{steps_of, steps_in, two_in, unbound_steps};
ghost use Rattle.reo_expand.specs.base.Steps.Step.{counted as a_count};
ghost use Rattle.reo_expand.specs.base.Judged.{Judges, IsNear, IsWalked};
ghost use Rattle.reo_expand.specs.tables.Knows.{Knows};
ghost use Rattle.reo_expand.specs.walk.Spans.{IsSpan, IsSpanOf, IsNoLoop};

use crate::base::{Bound, ExpandFault};
use crate::items::Walk;
use crate::parts::{Room, index_value};
use crate::tables::Firsts;
use reo_trees::{DeclarationTwo, FormTwo, Index, Item, ItemTwo};
use reo_values::{Bytes, List};
use std::alloc::Global;

/// The first value of a loop's variable, and how many turns there are.
#[derive(Clone, Copy)]
struct Span {
    first: i64,
    turns: u64,
}

/// From one value to another; both lie within 2^61.
fn span_between(low: i64, high: i64) -> Span
    requires low { IsNear low }
    requires high { IsNear high }
    ensures { IsSpanOf low high result }
{
    let turns = if high < low {
        0
    } else {
        (high - low + 1) as u64
    };
    Span { first: low, turns }
}

/// The turns of a loop. `Unbound` with the first name of its bounds that has no value; `NoMemory`
/// means out of memory.
fn turns_of(
    alloc: Global,
    room: &mut Room,
    bound: &[Bound],
    line: u32,
    low: &Index,
    high: &Index,
) -> Result<Span, ExpandFault>
    ensures { Judges (unbound_steps bound.now line low.now ++ unbound_steps bound.now line high.now)
        (IsSpan bound.now low.now high.now) result }
{
    let low = index_value(alloc, room, bound, line, low)?;
    let high = index_value(alloc, room, bound, line, high)?;
    Ok(span_between(low, high))
}

/// A turn of a loop begins: its variable has a value.
fn enter(
    walk: &mut Walk,
    alloc: Global,
    bound: &mut List<Bound>,
    variable: &Bytes,
    value: i64,
) -> Result<(), ExpandFault>
    requires small { walk.old.count ≤ 65536 }
    ensures walked { IsWalked walk.old.count (a_count 1 ∷ []) walk.new.count result }
    ensures bound { OnOk result (bound.new ≡ with_bound bound.old variable.now value) }
    ensures small { walk.new.count ≤ 65536 }
{
    walk.counted(1)?;
    walk.room.take_name(variable.as_slice())?;
    let name = variable.copy(alloc)?;
    bound.push(Bound { name, value })?;
    Ok(())
}

/// Adds what an item that is no loop stands for. A loop adds nothing here.
fn plain(
    walk: &mut Walk,
    alloc: Global,
    firsts: &Firsts,
    before: &[DeclarationTwo],
    bound: &[Bound],
    item: &ItemTwo,
    out: &mut List<Item>,
) -> Result<(), ExpandFault>
    requires small { walk.old.count ≤ 65536 }
    requires known { Knows before.now firsts.now }
    ensures walked { IsNoLoop item.now.form → IsWalked walk.old.count (steps_of (flat_map two_in
        before.now) bound.now item.now.line item.now.form) walk.new.count result }
    ensures made { IsNoLoop item.now.form → OnOk result (out.new ≡ out.old ++ items_of bound.now
        item.now.line item.now.form) }
    ensures small { walk.new.count ≤ 65536 }
{
    let line = item.line;
    match &item.form {
        FormTwo::Node { name, size, term } => walk.node(alloc, bound, line, name, size, term, out),
        FormTwo::Joined {
            channel,
            first,
            second,
        } => walk.joined(alloc, bound, line, channel, first, second, out),
        FormTwo::Used {
            name,
            number,
            arguments,
        } => {
            let unfit = firsts.is_unfit(before, name.as_slice(), number.is_some());
            let arguments = arguments.as_slice();
            walk.used(alloc, bound, line, name, number, arguments, unfit, out)
        }
        FormTwo::Loop { .. } => Ok(()),
    }
}

/// Adds what an item stands for.
#[cycle(walk)]
fn item(
    walk: &mut Walk,
    alloc: Global,
    firsts: &Firsts,
    before: &[DeclarationTwo],
    bound: &mut List<Bound>,
    item: &ItemTwo,
    out: &mut List<Item>,
) -> Result<(), ExpandFault>
    requires small { walk.old.count ≤ 65536 }
    requires known { Knows before.now firsts.now }
    ensures walked { IsWalked walk.old.count (steps_of (flat_map two_in before.now) bound.old
        item.now.line item.now.form) walk.new.count result }
    ensures made { OnOk result (out.new ≡ out.old ++ items_of bound.old item.now.line
        item.now.form) }
    ensures bound { OnOk result (bound.new ≡ bound.old) }
    ensures small { walk.new.count ≤ 65536 }
{
    match &item.form {
        FormTwo::Loop {
            variable,
            low,
            high,
            items: row,
        } => {
            let span = turns_of(
                alloc,
                &mut walk.room,
                bound.as_slice(),
                item.line,
                low,
                high,
            )?;
            let depth = bound.len();
            for turn in 0..span.turns {
                enter(walk, alloc, bound, variable, span.first + turn as i64)?;
                items(walk, alloc, firsts, before, bound, row.as_slice(), out)?;
                bound.truncate(depth);
            }
            Ok(())
        }
        _ => plain(walk, alloc, firsts, before, bound.as_slice(), item, out),
    }
}

/// Adds what items stand for, one after another. The first refusal that is met is answered, as the
/// steps of the items tell it.
#[cycle(walk)]
pub fn items(
    walk: &mut Walk,
    alloc: Global,
    firsts: &Firsts,
    before: &[DeclarationTwo],
    bound: &mut List<Bound>,
    items: &[ItemTwo],
    out: &mut List<Item>,
) -> Result<(), ExpandFault>
    requires small { walk.old.count ≤ 65536 }
    requires known { Knows before.now firsts.now }
    ensures walked { IsWalked walk.old.count (steps_in (flat_map two_in before.now) bound.old
        items.now) walk.new.count result }
    ensures made { OnOk result (out.new ≡ out.old ++ items_in bound.old items.now) }
    ensures bound { OnOk result (bound.new ≡ bound.old) }
    ensures small { walk.new.count ≤ 65536 }
{
    for next in items {
        item(walk, alloc, firsts, before, bound, next, out)?;
    }
    Ok(())
}
