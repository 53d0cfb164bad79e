//! Ends at parameters that go the other way.
ghost use Rattle.std.specs.Prelude.{◌≡◌, [], List, Bool, ℕ, IfOk};
ghost use Rattle.std.specs.List.{flat_map, zip};
ghost use Rattle.reo_trees.specs.declared.items.Item.{Item as AnItem};
ghost use Rattle.reo_trees.specs.declared.programs.Parameter.{Parameter as AParameter};
ghost use Rattle.reo_trees.specs.declared.programs.Connector.{Connector as AConnector};
ghost use Rattle.reo_rules.specs.Touches.{touch};
ghost use Rattle.reo_rules.specs.Direction.{direction_in_item, direction};
ghost use Rattle.reo_rules.specs.Judged.{IsJudged};
ghost use Rattle.reo_rules_names.specs.Connectors.{AreConnectors};
ghost use Rattle.reo_rules_names.specs.Closed.{AreClosed, against};

use crate::connectors::Connectors;
use crate::ends::{EndsAtNames, is_drain};
use reo_rules::FlatFault;
use reo_trees::{Connector, Declaration, Item, ItemForm, Parameter, Program};
use reo_values::{Bytes, NoMemory};
use std::alloc::Global;

/// The ends that may not stand at parameters: sink ends at an `in`, source ends at an `out`.
fn closed_by(alloc: Global, parameters: &[Parameter]) -> Result<EndsAtNames, NoMemory>
    ensures { IfOk result (AreClosed parameters.now) }
{
    let mut closed = EndsAtNames::new(alloc);
    for parameter in parameters {
        closed.note(alloc, parameter.name.as_slice(), !parameter.inward)?;
    }
    Ok(closed)
}

/// An end at a name.
fn end_direction(
    alloc: Global,
    closed: &EndsAtNames,
    line: u32,
    name: &Bytes,
    is_source: bool,
) -> Result<(), FlatFault>
    ensures { (ps : List AParameter) → AreClosed ps closed.now
        → IsJudged (against ps line (touch name.now is_source)) result }
{
    if closed.has(name.as_slice(), is_source) {
        return Err(FlatFault::Direction {
            line,
            node: name.copy(alloc)?,
        });
    }
    Ok(())
}

/// The arguments of a use of a connector whose parameters have these ways.
fn use_direction(
    alloc: Global,
    closed: &EndsAtNames,
    line: u32,
    arguments: &[Bytes],
    ways: &[bool],
) -> Result<(), FlatFault>
    ensures { (ps : List AParameter) → AreClosed ps closed.now
        → IsJudged (flat_map (λ (q : List ℕ × Bool). against ps line (touch q.0 q.1))
        (zip arguments.now ways.now)) result }
{
    for (argument, way) in arguments.iter().zip(ways) {
        end_direction(alloc, closed, line, argument, *way)?;
    }
    Ok(())
}

/// An item, end by end.
fn item_direction(
    alloc: Global,
    connectors: &Connectors,
    closed: &EndsAtNames,
    line: u32,
    form: &ItemForm,
) -> Result<(), FlatFault>
    ensures { (known : List AConnector) (ps : List AParameter)
        → AreConnectors known connectors.now → AreClosed ps closed.now
        → IsJudged (direction_in_item known ps line form.now) result }
{
    match form {
        ItemForm::Node { .. } => Ok(()),
        ItemForm::Joined {
            channel,
            first,
            second,
        } => {
            end_direction(alloc, closed, line, first, true)?;
            end_direction(alloc, closed, line, second, is_drain(channel))
        }
        ItemForm::Used { name, arguments } => {
            let ways = connectors.ways(name.as_slice());
            use_direction(alloc, closed, line, arguments.as_slice(), ways)
        }
    }
}

/// Items one after another.
fn items_direction(
    alloc: Global,
    connectors: &Connectors,
    closed: &EndsAtNames,
    items: &[Item],
) -> Result<(), FlatFault>
    ensures { (known : List AConnector) (ps : List AParameter)
        → AreConnectors known connectors.now → AreClosed ps closed.now
        → IsJudged (flat_map (λ (i : AnItem). direction_in_item known ps i.line i.form)
        items.now) result }
{
    for item in items {
        item_direction(alloc, connectors, closed, item.line, &item.form)?;
    }
    Ok(())
}

/// The items of a connector.
fn connector_direction(
    alloc: Global,
    connectors: &Connectors,
    connector: &Connector,
) -> Result<(), FlatFault>
    ensures { (known : List AConnector) → AreConnectors known connectors.now
        → IsJudged (flat_map
        (λ (i : AnItem). direction_in_item known connector.now.parameters i.line i.form)
        connector.now.items) result }
{
    let closed = closed_by(alloc, connector.parameters.as_slice())?;
    items_direction(alloc, connectors, &closed, connector.items.as_slice())
}

/// Declarations one after another; the connectors are noted.
fn declarations_direction(
    alloc: Global,
    connectors: &mut Connectors,
    declarations: &[Declaration],
) -> Result<(), FlatFault>
    requires { AreConnectors [] connectors.old }
    ensures { IsJudged (direction declarations.now) result }
{
    for declaration in declarations {
        if let Declaration::Made(connector) = declaration {
            connector_direction(alloc, connectors, connector)?;
            connectors.add(alloc, connector)?;
        }
    }
    Ok(())
}

/// No sink end, nor an argument for an `out` parameter, stands at an `in` parameter, and no source
/// end, nor an argument for an `in` parameter, at an `out` parameter. Where one does, `Direction`
/// is the line of the first such item, and the name at its first such end. `NoMemory` is out of
/// memory.
pub fn judge_direction(alloc: Global, program: &Program) -> Result<(), FlatFault>
    ensures { IsJudged (direction program.now.declarations) result }
{
    let mut connectors = Connectors::new(alloc);
    declarations_direction(alloc, &mut connectors, program.declarations.as_slice())
}
