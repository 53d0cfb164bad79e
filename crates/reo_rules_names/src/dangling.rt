//! Nodes and parameters that lack an end in their connector.
ghost use Rattle.std.specs.Prelude.{◌≡◌, [], ◌++◌, List, Bool, ℕ, IfOk, OnOk, map};
ghost use Rattle.std.specs.List.{flat_map, zip};
ghost use Rattle.reo_trees.specs.declared.items.Item.{Item as AnItem};
ghost use Rattle.reo_trees.specs.declared.programs.Connector.{Connector as AConnector};
ghost use Rattle.reo_rules.specs.Touches.{Touch, touch, touches_in, touches_of};
ghost use Rattle.reo_rules.specs.Dangling.{dangling_parameter, dangling_in_item, dangling};
ghost use Rattle.reo_rules.specs.Judged.{IsJudged};
ghost use Rattle.reo_rules_names.specs.Connectors.{AreConnectors};
ghost use Rattle.reo_rules_names.specs.EndsAtNames.{AreEnds};
ghost use Rattle.reo_rules_names.specs.Loose.{lacking_ends};

use crate::connectors::Connectors;
use crate::ends::{EndsAtNames, is_drain};
use reo_rules::FlatFault;
use reo_trees::{Connector, Declaration, Item, ItemForm, Parameter, Program};
use reo_values::{Bytes, NoMemory};
use std::alloc::Global;

/// Notes the ends of arguments of a use of a connector whose parameters have these ways.
fn note_arguments(
    alloc: Global,
    ends: &mut EndsAtNames,
    arguments: &[Bytes],
    ways: &[bool],
) -> Result<(), NoMemory>
    ensures { OnOk result ((touches : List Touch) → AreEnds touches ends.old
        → AreEnds (touches ++ map (λ (q : List ℕ × Bool). touch q.0 q.1)
        (zip arguments.now ways.now)) ends.new) }
{
    for (argument, way) in arguments.iter().zip(ways) {
        ends.note(alloc, argument.as_slice(), *way)?;
    }
    Ok(())
}

/// Notes the ends of an item.
fn note_item(
    alloc: Global,
    connectors: &Connectors,
    ends: &mut EndsAtNames,
    form: &ItemForm,
) -> Result<(), NoMemory>
    ensures { OnOk result ((known : List AConnector) (touches : List Touch)
        → AreConnectors known connectors.now → AreEnds touches ends.old
        → AreEnds (touches ++ touches_in known form.now) ends.new) }
{
    match form {
        ItemForm::Node { .. } => Ok(()),
        ItemForm::Joined {
            channel,
            first,
            second,
        } => {
            ends.note(alloc, first.as_slice(), true)?;
            ends.note(alloc, second.as_slice(), is_drain(channel))
        }
        ItemForm::Used { name, arguments } => {
            let ways = connectors.ways(name.as_slice());
            note_arguments(alloc, ends, arguments.as_slice(), ways)
        }
    }
}

/// The ends of all items.
fn item_ends(
    alloc: Global,
    connectors: &Connectors,
    items: &[Item],
) -> Result<EndsAtNames, NoMemory>
    ensures { IfOk result (λ ends. (known : List AConnector) → AreConnectors known connectors.now
        → AreEnds (flat_map (λ (i : AnItem). touches_in known i.form) items.now) ends) }
{
    let mut ends = EndsAtNames::new(alloc);
    for item in items {
        note_item(alloc, connectors, &mut ends, &item.form)?;
    }
    Ok(ends)
}

/// A parameter.
fn parameter_dangling(
    alloc: Global,
    ends: &EndsAtNames,
    parameter: &Parameter,
) -> Result<(), FlatFault>
    ensures { (touches : List Touch) → AreEnds touches ends.now
        → IsJudged (dangling_parameter touches parameter.now) result }
{
    if ends.has(parameter.name.as_slice(), parameter.inward) {
        return Ok(());
    }
    Err(FlatFault::Dangling {
        line: parameter.line,
        node: parameter.name.copy(alloc)?,
    })
}

/// Parameters one after another.
fn parameters_dangling(
    alloc: Global,
    ends: &EndsAtNames,
    parameters: &[Parameter],
) -> Result<(), FlatFault>
    ensures { (touches : List Touch) → AreEnds touches ends.now
        → IsJudged (flat_map (dangling_parameter touches) parameters.now) result }
{
    for parameter in parameters {
        parameter_dangling(alloc, ends, parameter)?;
    }
    Ok(())
}

/// An item: only nodes have to have ends.
fn item_dangling(
    alloc: Global,
    ends: &EndsAtNames,
    line: u32,
    form: &ItemForm,
) -> Result<(), FlatFault>
    ensures { (touches : List Touch) → AreEnds touches ends.now
        → IsJudged (dangling_in_item touches line form.now) result }
{
    match form {
        ItemForm::Node { name, .. } => {
            if ends.has(name.as_slice(), true) && ends.has(name.as_slice(), false) {
                return Ok(());
            }
            Err(FlatFault::Dangling {
                line,
                node: name.copy(alloc)?,
            })
        }
        ItemForm::Joined { .. } | ItemForm::Used { .. } => Ok(()),
    }
}

/// Items one after another.
fn items_dangling(alloc: Global, ends: &EndsAtNames, items: &[Item]) -> Result<(), FlatFault>
    ensures { (touches : List Touch) → AreEnds touches ends.now
        → IsJudged (flat_map (λ (i : AnItem). dangling_in_item touches i.line i.form) items.now)
        result }
{
    for item in items {
        item_dangling(alloc, ends, item.line, &item.form)?;
    }
    Ok(())
}

/// A connector that has these ends: its parameters, and then its nodes.
fn ends_dangling(alloc: Global, ends: &EndsAtNames, connector: &Connector) -> Result<(), FlatFault>
    ensures { (touches : List Touch) → AreEnds touches ends.now
        → IsJudged (lacking_ends touches connector.now) result }
{
    parameters_dangling(alloc, ends, connector.parameters.as_slice())?;
    items_dangling(alloc, ends, connector.items.as_slice())
}

/// A connector.
fn connector_dangling(
    alloc: Global,
    connectors: &Connectors,
    connector: &Connector,
) -> Result<(), FlatFault>
    ensures { (known : List AConnector) → AreConnectors known connectors.now
        → IsJudged (lacking_ends (touches_of known connector.now) connector.now) result }
{
    let ends = item_ends(alloc, connectors, connector.items.as_slice())?;
    ends_dangling(alloc, &ends, connector)
}

/// Declarations one after another; the connectors are noted.
fn declarations_dangling(
    alloc: Global,
    connectors: &mut Connectors,
    declarations: &[Declaration],
) -> Result<(), FlatFault>
    requires { AreConnectors [] connectors.old }
    ensures { IsJudged (dangling declarations.now) result }
{
    for declaration in declarations {
        if let Declaration::Made(connector) = declaration {
            connector_dangling(alloc, connectors, connector)?;
            connectors.add(alloc, connector)?;
        }
    }
    Ok(())
}

/// Each node has an incoming and an outgoing end in its connector, each `in` parameter an outgoing
/// and each `out` parameter an incoming one; an argument for an `in` parameter is an outgoing end,
/// one for an `out` parameter an incoming end. Where one lacks such an end, `Dangling` is the
/// first, in a connector its parameters before its nodes, with the line of its declaration.
/// `NoMemory` is out of memory.
pub fn judge_dangling(alloc: Global, program: &Program) -> Result<(), FlatFault>
    ensures { IsJudged (dangling program.now.declarations) result }
{
    let mut connectors = Connectors::new(alloc);
    declarations_dangling(alloc, &mut connectors, program.declarations.as_slice())
}
