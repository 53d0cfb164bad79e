//! Names that are not declared before their place.
ghost use Rattle.std.specs.Prelude.{◌≡◌, [], ◌∷◌, ◌++◌, OnOk, IfOk, List, ℕ};
ghost use Rattle.std.specs.List.{flat_map};
ghost use Rattle.reo_trees.specs.declared.items.Item.{Item as AnItem};
ghost use Rattle.reo_trees.specs.declared.types.TypeTerm.{TypeTerm as APart};
ghost use Rattle.reo_trees.specs.declared.programs.Parameter.{Parameter as AParameter};
ghost use Rattle.reo_rules.specs.Lists.{each_after};
ghost use Rattle.reo_rules.specs.Types.{Typed, parts_of};
ghost use Rattle.reo_rules.specs.Terms.{symbols_in};
ghost use Rattle.reo_rules.specs.Scopes.{parameter_names, node_names, node_names_in};
ghost use Rattle.reo_rules.specs.Unknown.{missing, unknown_in_part, unknown_in_type, unknown_symbol, unknown_in_channel, unknown_in_item, unknown_in_connector, unknown};
ghost use Rattle.reo_rules.specs.Judged.{IsJudged};
ghost use Rattle.reo_rules_names.specs.SameNames.{SameNames};
ghost use Rattle.reo_rules_names.specs.Symbols.{AreTypes};

use crate::types::DeclaredTypes;
use reo_rules::{FlatFault, Names};
use reo_trees::{
    Channel, Connector, Declaration, Item, ItemForm, Parameter, Program, Shape, TermForm,
};
use reo_values::{Bytes, NoMemory};
use std::alloc::Global;

/// A name, which has to be one of these.
fn one_of(alloc: Global, names: &Names, line: u32, name: &Bytes) -> Result<(), FlatFault>
    ensures { IsJudged (missing names.now line name.now) result }
{
    if names.has(name.as_slice()) {
        return Ok(());
    }
    Err(FlatFault::Unknown {
        line,
        name: name.copy(alloc)?,
    })
}

/// Names, each of which has to be one of these.
fn all_of(alloc: Global, names: &Names, line: u32, sought: &[Bytes]) -> Result<(), FlatFault>
    ensures { IsJudged (flat_map (missing names.now line) sought.now) result }
{
    for name in sought {
        one_of(alloc, names, line, name)?;
    }
    Ok(())
}

/// A written type: the types that it names.
fn type_unknown(alloc: Global, types: &Names, line: u32, shape: &Shape) -> Result<(), FlatFault>
    ensures { IsJudged (flat_map (λ (part : APart). unknown_in_part types.now part.line part.shape)
        (parts_of line shape.now)) result }
{
    match shape {
        Shape::Named(name) => one_of(alloc, types, line, name),
        Shape::Pair(pair) => {
            let pair = pair.get();
            type_unknown(alloc, types, pair.left.line, &pair.left.shape)?;
            type_unknown(alloc, types, pair.right.line, &pair.right.shape)
        }
        Shape::Unit | Shape::Bool | Shape::Int(_, _) | Shape::Sym(_) | Shape::Text(_) => Ok(()),
    }
}

/// A symbol of a type: the type, and then the symbol.
fn symbol_unknown(
    alloc: Global,
    types: &DeclaredTypes,
    line: u32,
    of: &Bytes,
    symbol: &Bytes,
) -> Result<(), FlatFault>
    ensures { (known : List Typed) → AreTypes known types.now
        → IsJudged (unknown_symbol known
        (record { line = line; type = of.now; symbol = symbol.now })) result }
{
    one_of(alloc, &types.names, line, of)?;
    match types.symbols(of.as_slice()) {
        Some(symbols) => one_of(alloc, symbols, line, symbol),
        None => Ok(()),
    }
}

/// An expression: the symbols that it names, from left to right.
fn term_unknown(
    alloc: Global,
    types: &DeclaredTypes,
    line: u32,
    form: &TermForm,
) -> Result<(), FlatFault>
    ensures { (known : List Typed) → AreTypes known types.now
        → IsJudged (flat_map (unknown_symbol known) (symbols_in line form.now)) result }
{
    match form {
        TermForm::Sym(of, symbol) => symbol_unknown(alloc, types, line, of, symbol),
        TermForm::One(_, operand) => {
            let operand = operand.get();
            term_unknown(alloc, types, operand.line, &operand.form)
        }
        TermForm::Two(_, pair) => {
            let pair = pair.get();
            term_unknown(alloc, types, pair.left.line, &pair.left.form)?;
            term_unknown(alloc, types, pair.right.line, &pair.right.form)
        }
        TermForm::If(parts) => {
            let parts = parts.get();
            term_unknown(alloc, types, parts.condition.line, &parts.condition.form)?;
            term_unknown(alloc, types, parts.yes.line, &parts.yes.form)?;
            term_unknown(alloc, types, parts.no.line, &parts.no.form)
        }
        TermForm::It | TermForm::Unit | TermForm::Bool(_) | TermForm::Int(_) | TermForm::Text(_) =>
            Ok(()),
    }
}

/// A channel: its expression.
fn channel_unknown(alloc: Global, types: &DeclaredTypes, channel: &Channel) -> Result<(), FlatFault>
    ensures { (known : List Typed) → AreTypes known types.now
        → IsJudged (unknown_in_channel known channel.now) result }
{
    match channel {
        Channel::Filter(test) => term_unknown(alloc, types, test.line, &test.form),
        Channel::Map(value) => term_unknown(alloc, types, value.line, &value.form),
        Channel::Sync
        | Channel::Lossy
        | Channel::SyncDrain
        | Channel::AsyncDrain
        | Channel::Fifo1(_)
        | Channel::Fifo(_, _)
        | Channel::Shift(_, _)
        | Channel::Variable(_)
        | Channel::Quota(_) => Ok(()),
    }
}

/// An item, by the types, the connectors and the nodes before it.
fn item_unknown(
    alloc: Global,
    types: &DeclaredTypes,
    connectors: &Names,
    nodes: &Names,
    line: u32,
    form: &ItemForm,
) -> Result<(), FlatFault>
    ensures { (known : List Typed) → AreTypes known types.now
        → IsJudged (unknown_in_item known connectors.now nodes.now line form.now) result }
{
    match form {
        ItemForm::Node { term, .. } => type_unknown(alloc, &types.names, term.line, &term.shape),
        ItemForm::Joined {
            channel,
            first,
            second,
        } => {
            one_of(alloc, nodes, line, first)?;
            one_of(alloc, nodes, line, second)?;
            channel_unknown(alloc, types, channel)
        }
        ItemForm::Used { name, arguments } => {
            one_of(alloc, connectors, line, name)?;
            all_of(alloc, nodes, line, arguments.as_slice())
        }
    }
}

/// Notes the node that an item declares, if it is one. `NoMemory` is out of memory.
fn note_node(alloc: Global, nodes: &mut Names, form: &ItemForm) -> Result<(), NoMemory>
    ensures { OnOk result ((names : List (List ℕ)) → SameNames nodes.old names
        → SameNames nodes.new (names ++ node_names_in form.now)) }
{
    if let ItemForm::Node { name, .. } = form {
        nodes.note(alloc, name.as_slice())?;
    }
    Ok(())
}

/// The items of a connector whose parameters were noted.
fn items_unknown(
    alloc: Global,
    types: &DeclaredTypes,
    connectors: &Names,
    nodes: &mut Names,
    items: &[Item],
) -> Result<(), FlatFault>
    ensures { (known : List Typed) (cs : List (List ℕ)) (ps : List AParameter)
        → AreTypes known types.now → SameNames connectors.now cs
        → SameNames nodes.old (parameter_names ps)
        → IsJudged (each_after (λ before (i : AnItem). unknown_in_item known cs
        (parameter_names ps ++ node_names before) i.line i.form) [] items.now) result }
{
    for item in items {
        item_unknown(alloc, types, connectors, nodes, item.line, &item.form)?;
        note_node(alloc, nodes, &item.form)?;
    }
    Ok(())
}

/// The types of parameters.
fn parameters_unknown(
    alloc: Global,
    types: &Names,
    parameters: &[Parameter],
) -> Result<(), FlatFault>
    ensures { IsJudged (flat_map (λ (p : AParameter). unknown_in_type types.now p.term)
        parameters.now) result }
{
    for parameter in parameters {
        type_unknown(alloc, types, parameter.term.line, &parameter.term.shape)?;
    }
    Ok(())
}

/// The names of parameters. `NoMemory` is out of memory.
fn parameter_names(alloc: Global, parameters: &[Parameter]) -> Result<Names, NoMemory>
    ensures { IfOk result (λ names. SameNames names (parameter_names parameters.now)) }
{
    let mut names = Names::new(alloc);
    for parameter in parameters {
        names.note(alloc, parameter.name.as_slice())?;
    }
    Ok(names)
}

/// A connector, by the types and the connectors before it.
fn connector_unknown(
    alloc: Global,
    types: &DeclaredTypes,
    connectors: &Names,
    connector: &Connector,
) -> Result<(), FlatFault>
    ensures { (known : List Typed) (cs : List (List ℕ))
        → AreTypes known types.now → SameNames connectors.now cs
        → IsJudged (unknown_in_connector known cs connector.now) result }
{
    let parameters = connector.parameters.as_slice();
    parameters_unknown(alloc, &types.names, parameters)?;
    let mut nodes = parameter_names(alloc, parameters)?;
    let items = connector.items.as_slice();
    items_unknown(alloc, types, connectors, &mut nodes, items)
}

/// Declarations one after another; each counts once it is complete.
fn declarations_unknown(
    alloc: Global,
    types: &mut DeclaredTypes,
    connectors: &mut Names,
    declarations: &[Declaration],
) -> Result<(), FlatFault>
    requires no_types { AreTypes [] types.old }
    requires no_connectors { connectors.old ≡ [] }
    ensures { IsJudged (unknown declarations.now) result }
{
    for declaration in declarations {
        match declaration {
            Declaration::Named { name, term, .. } => {
                type_unknown(alloc, &types.names, term.line, &term.shape)?;
                types.add(alloc, name, &term.shape)?;
            }
            Declaration::Made(connector) => {
                connector_unknown(alloc, types, connectors, connector)?;
                connectors.note(alloc, connector.name.as_slice())?;
            }
        }
    }
    Ok(())
}

/// Each type, connector and node is declared before its place, a node in its connector, and where
/// an expression names a symbol of a sym type, the type has it. Where one is not, `Unknown` is the
/// first in the text that is not, with the line of the type, item or term that it stands in; for
/// `T.s` it is `T` where no type `T` is declared before, and else `s`. `NoMemory` is out of memory.
pub fn judge_unknown(alloc: Global, program: &Program) -> Result<(), FlatFault>
    ensures { IsJudged (unknown program.now.declarations) result }
{
    let mut types = DeclaredTypes::new(alloc);
    let mut connectors = Names::new(alloc);
    let declarations = program.declarations.as_slice();
    declarations_unknown(alloc, &mut types, &mut connectors, declarations)
}
