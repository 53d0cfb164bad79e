//! The copies of a connector, one after another.
ghost use Rattle.std.specs.Prelude.{◌≡◌, ◌≤◌, ◌++◌, ◌∷◌, [], OnOk, IfOk, map, flat_map};
ghost use Rattle.reo_trees.specs.declared.programs.Declaration.TheVariants as declarations;
ghost use Rattle.reo_expand.specs.base.Expansion.{connector_for};
ghost use Rattle.reo_expand.specs.base.Steps.{steps_in, two_in};
ghost use Rattle.reo_expand.specs.base.Judged.{IsWalked};
ghost use Rattle.reo_expand.specs.tables.Knows.{Knows};
ghost use Rattle.reo_expand.specs.programs.Noted.{bound_number, instance_for, steps_made, made_noted, steps_noted, declared_noted};

use crate::base::{ExpandFault, Instance};
use crate::items::{Walk, copied_type};
use crate::parts::Room;
use crate::programs::copying::{copied, numbered_instance};
use crate::tables::Firsts;
use crate::uses::Uses;
use reo_trees::{ConnectorTwo, Declaration, DeclarationTwo, TypeTerm};
use reo_values::{Bytes, List, NoMemory};
use std::alloc::Global;

/// What asking for one number takes, beside the name.
const ASK: u64 = 8;

/// How many numbers are asked for.
const NUMBERS: u64 = 4_097;

/// The bytes that asking for the numbers of a name takes.
fn asking_weight(name: &Bytes) -> u64 {
    let each = ASK.saturating_add(name.len() as u64 / 8);
    NUMBERS.saturating_mul(each)
}

/// Adds a copy for each of these values of the connector's number.
fn numbered(
    walk: &mut Walk,
    alloc: Global,
    firsts: &Firsts,
    before: &[DeclarationTwo],
    connector: &ConnectorTwo,
    number: &Bytes,
    values: &[u16],
    out: &mut List<Declaration>,
) -> Result<(), ExpandFault>
    requires small { walk.old.count ≤ 65536 }
    requires known { Knows before.now firsts.now }
    ensures walked { IsWalked walk.old.count (flat_map (λ k. steps_in (flat_map two_in before.now)
        (bound_number number.now k) connector.now.items) values.now) walk.new.count result }
    ensures made { OnOk result (out.new ≡ out.old ++ map (λ k. declarations.Made (connector_for
        connector.now (instance_for connector.now.name number.now k))) values.now) }
    ensures small { walk.new.count ≤ 65536 }
{
    for value in values {
        walk.room.take_name(connector.name.as_slice())?;
        let instance = numbered_instance(alloc, &connector.name, number, *value)?;
        let next = copied(walk, alloc, firsts, before, connector, instance)?;
        out.push(next)?;
    }
    Ok(())
}

/// Adds the one copy of a connector without a number.
fn plain(
    walk: &mut Walk,
    alloc: Global,
    firsts: &Firsts,
    before: &[DeclarationTwo],
    connector: &ConnectorTwo,
    out: &mut List<Declaration>,
) -> Result<(), ExpandFault>
    requires small { walk.old.count ≤ 65536 }
    requires known { Knows before.now firsts.now }
    requires none { connector.now.number ≡ None }
    ensures walked { IsWalked walk.old.count (steps_in (flat_map two_in before.now) []
        connector.now.items) walk.new.count result }
    ensures made { OnOk result (out.new ≡ out.old ++ declarations.Made (connector_for connector.now
        (record { name = connector.now.name; bound = [] })) ∷ []) }
    ensures small { walk.new.count ≤ 65536 }
{
    walk.room.take_name(connector.name.as_slice())?;
    let name = connector.name.copy(alloc)?;
    let bound = List::new(alloc);
    let instance = Instance { name, bound };
    let next = copied(walk, alloc, firsts, before, connector, instance)?;
    out.push(next)?;
    Ok(())
}

/// Adds the copies of a connector: one, or one for each number with which it is used.
fn family(
    walk: &mut Walk,
    alloc: Global,
    firsts: &Firsts,
    uses: &Uses,
    before: &[DeclarationTwo],
    connector: &ConnectorTwo,
    out: &mut List<Declaration>,
) -> Result<(), ExpandFault>
    requires small { walk.old.count ≤ 65536 }
    requires known { Knows before.now firsts.now }
    ensures walked { IsWalked walk.old.count (steps_made (flat_map two_in before.now)
        uses.now.names connector.now) walk.new.count result }
    ensures made { OnOk result (out.new ≡ out.old ++ made_noted uses.now.names connector.now) }
    ensures small { walk.new.count ≤ 65536 }
{
    match &connector.number {
        None => plain(walk, alloc, firsts, before, connector, out),
        Some(number) => {
            walk.room.take(asking_weight(&connector.name))?;
            let values = uses.numbers(alloc, connector.name.as_slice())?;
            let values = values.as_slice();
            numbered(walk, alloc, firsts, before, connector, number, values, out)
        }
    }
}

/// Adds a named type.
fn named(
    room: &mut Room,
    alloc: Global,
    line: u32,
    name: &Bytes,
    term: &TypeTerm,
    out: &mut List<Declaration>,
) -> Result<(), NoMemory>
    ensures { OnOk result (out.new ≡ out.old ++ declarations.Named line name.now term.now ∷ []) }
{
    room.take_name(name.as_slice())?;
    let name = name.copy(alloc)?;
    let term = copied_type(alloc, room, term)?;
    out.push(Declaration::Named { line, name, term })?;
    Ok(())
}

/// What a declaration stands for, where these connectors are used behind it. The first refusal
/// that is met is answered; `NoMemory` means out of memory, or of room.
pub(crate) fn declared(
    walk: &mut Walk,
    alloc: Global,
    firsts: &Firsts,
    uses: &Uses,
    before: &[DeclarationTwo],
    declaration: &DeclarationTwo,
) -> Result<List<Declaration>, ExpandFault>
    requires small { walk.old.count ≤ 65536 }
    requires known { Knows before.now firsts.now }
    ensures walked { IsWalked walk.old.count (steps_noted (flat_map two_in before.now)
        uses.now.names declaration.now) walk.new.count result }
    ensures made { IfOk result (λ ds. ds ≡ declared_noted uses.now.names declaration.now) }
    ensures small { walk.new.count ≤ 65536 }
{
    let mut out = List::new(alloc);
    match declaration {
        DeclarationTwo::Named { line, name, term } => {
            named(&mut walk.room, alloc, *line, name, term, &mut out)?;
            Ok(out)
        }
        DeclarationTwo::Made(connector) => {
            family(walk, alloc, firsts, uses, before, connector, &mut out)?;
            Ok(out)
        }
    }
}
