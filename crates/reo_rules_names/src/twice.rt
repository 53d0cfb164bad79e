//! Names that stand twice.
ghost use Rattle.std.specs.Prelude.{◌≡◌, [], ◌∷◌, ◌++◌, OnOk, ℕ, List};
ghost use Rattle.std.specs.List.{flat_map};
ghost use Rattle.reo_trees.specs.declared.items.Item.{Item as AnItem};
ghost use Rattle.reo_trees.specs.declared.types.TypeTerm.{TypeTerm as APart};
ghost use Rattle.reo_rules.specs.Lists.{each_after};
ghost use Rattle.reo_rules.specs.Types.{parts_of};
ghost use Rattle.reo_rules.specs.Scopes.{parameter_names};
ghost use Rattle.reo_rules.specs.Twice.{twice_among, twice_in_part, twice_in_parameter, twice_in_item, twice_in_connector, twice};
ghost use Rattle.reo_rules.specs.Judged.{IsJudged};

use reo_rules::{FlatFault, Names};
use reo_trees::{Connector, Declaration, Item, ItemForm, Parameter, Program, Shape};
use reo_values::Bytes;
use std::alloc::Global;

/// Notes a name, which may not be there yet.
fn once(alloc: Global, seen: &mut Names, line: u32, name: &Bytes) -> Result<(), FlatFault>
    ensures judged { IsJudged (twice_among seen.old line name.now) result }
    ensures seen { OnOk result (seen.new ≡ seen.old ++ name.now ∷ []) }
{
    if seen.note(alloc, name.as_slice())? {
        return Err(FlatFault::Twice {
            line,
            name: name.copy(alloc)?,
        });
    }
    Ok(())
}

/// The symbols of one type.
fn symbols_twice(alloc: Global, line: u32, names: &[Bytes]) -> Result<(), FlatFault>
    ensures { IsJudged (each_after (λ before name. twice_among before line name) [] names.now)
        result }
{
    let mut seen = Names::new(alloc);
    for name in names {
        once(alloc, &mut seen, line, name)?;
    }
    Ok(())
}

/// The symbols of the types in a written type.
fn type_twice(alloc: Global, line: u32, shape: &Shape) -> Result<(), FlatFault>
    ensures { IsJudged (flat_map (λ (part : APart). twice_in_part part.line part.shape)
        (parts_of line shape.now)) result }
{
    match shape {
        Shape::Sym(names) => symbols_twice(alloc, line, names.get().as_slice()),
        Shape::Pair(pair) => {
            let pair = pair.get();
            type_twice(alloc, pair.left.line, &pair.left.shape)?;
            type_twice(alloc, pair.right.line, &pair.right.shape)
        }
        Shape::Unit | Shape::Bool | Shape::Int(_, _) | Shape::Text(_) | Shape::Named(_) => Ok(()),
    }
}

/// The parameters of a connector, which are noted.
fn parameters_twice(
    alloc: Global,
    seen: &mut Names,
    parameters: &[Parameter],
) -> Result<(), FlatFault>
    requires { seen.old ≡ [] }
    ensures judged { IsJudged (each_after twice_in_parameter [] parameters.now) result }
    ensures seen { OnOk result (seen.new ≡ parameter_names parameters.now) }
{
    for parameter in parameters {
        once(alloc, seen, parameter.line, &parameter.name)?;
        type_twice(alloc, parameter.term.line, &parameter.term.shape)?;
    }
    Ok(())
}

/// The nodes of a connector, whose parameters were noted.
fn items_twice(
    alloc: Global,
    seen: &mut Names,
    parameters: &[Parameter],
    items: &[Item],
) -> Result<(), FlatFault>
    requires { seen.old ≡ parameter_names parameters.now }
    ensures { IsJudged (each_after
        (λ before (i : AnItem). twice_in_item parameters.now before i.line i.form)
        [] items.now) result }
{
    for item in items {
        if let ItemForm::Node { name, term } = &item.form {
            once(alloc, seen, item.line, name)?;
            type_twice(alloc, term.line, &term.shape)?;
        }
    }
    Ok(())
}

/// A connector: the first of its parameters, nodes and symbols that stands twice.
fn connector_twice(alloc: Global, connector: &Connector) -> Result<(), FlatFault>
    ensures { IsJudged (twice_in_connector connector.now) result }
{
    let mut seen = Names::new(alloc);
    let parameters = connector.parameters.as_slice();
    parameters_twice(alloc, &mut seen, parameters)?;
    items_twice(alloc, &mut seen, parameters, connector.items.as_slice())
}

/// Declarations one after another; the names of types and of connectors are noted.
fn declarations_twice(
    alloc: Global,
    types: &mut Names,
    connectors: &mut Names,
    declarations: &[Declaration],
) -> Result<(), FlatFault>
    requires no_types { types.old ≡ [] }
    requires no_connectors { connectors.old ≡ [] }
    ensures { IsJudged (twice declarations.now) result }
{
    for declaration in declarations {
        match declaration {
            Declaration::Named { line, name, term } => {
                once(alloc, types, *line, name)?;
                type_twice(alloc, term.line, &term.shape)?;
            }
            Declaration::Made(connector) => {
                once(alloc, connectors, connector.line, &connector.name)?;
                connector_twice(alloc, connector)?;
            }
        }
    }
    Ok(())
}

/// No name stands twice among the types, among the connectors, among the symbols of one type,
/// nor among the parameters and nodes of one connector. Where one does, `Twice` is the first
/// name in the text that stands a second time, with the line of the second. `NoMemory` is out of
/// memory.
pub fn judge_twice(alloc: Global, program: &Program) -> Result<(), FlatFault>
    ensures { IsJudged (twice program.now.declarations) result }
{
    let mut types = Names::new(alloc);
    let mut connectors = Names::new(alloc);
    let declarations = program.declarations.as_slice();
    declarations_twice(alloc, &mut types, &mut connectors, declarations)
}
