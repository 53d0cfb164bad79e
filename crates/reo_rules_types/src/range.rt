//! Types and items that leave their bounds.
ghost use Rattle.std.specs.Prelude.{◌≡◌, ◌<◌, [], false, not, is_none, length, nat_lt, List, IfOk, OnOk, IsErrOf};
ghost use Rattle.std.specs.List.{flat_map};
ghost use Rattle.reo_exprs.specs.Typing.{type_of_expr};
ghost use Rattle.reo_trees.specs.declared.items.Item.{Item as AnItem};
ghost use Rattle.reo_trees.specs.declared.programs.Parameter.{Parameter as AParameter};
ghost use Rattle.reo_rules.specs.declared.fault.FlatFault.TheVariants as faults;
ghost use Rattle.reo_rules.specs.Lists.{where_true};
ghost use Rattle.reo_rules.specs.Types.{Typed, types_of, resolved, depth_of};
ghost use Rattle.reo_rules.specs.Terms.{expr_of};
ghost use Rattle.reo_rules.specs.Twice.{twice_in_connector};
ghost use Rattle.reo_rules.specs.Ranges.{range_in_type, lies_in, leaves_by_filter, leaves_by_map, leaves, range_in_item, range_in_connector, out_of_range};
ghost use Rattle.reo_rules.specs.Judged.{IsJudged};
ghost use Rattle.reo_rules.specs.Rules.{KeepsNames};
ghost use Rattle.reo_rules_types.specs.Cells.{type_at, Keeps};
ghost use Rattle.reo_rules_types.specs.Scoped.{typed, AreKnown};

use crate::exprs::expr_of_term;
use crate::scope::Scope;
use crate::scopes::{declare_type, read_scope};
use crate::shapes::number_of;
use crate::trees::{is_deeper, tree_of};
use crate::types::TypeStore;
use reo_exprs::{Expr, TypeFault, lies_inside, type_of};
use reo_rules::FlatFault;
use reo_trees::{
    Channel, Connector, Declaration, Item, ItemForm, Parameter, Program, Shape, TermForm, TypeTerm,
};
use reo_values::{Kindred, NoMemory};
use std::alloc::Global;

const MOST_SYMBOLS: usize = 1_024;

const MOST_LEVELS: usize = 8;

// A break, where a test holds.
fn range_where(test: bool, line: u32) -> Result<(), FlatFault>
    ensures judged { IsJudged (where_true test (faults.Range line)) result }
    ensures sure { IsErrOf result FlatFault.NoMemory → ⊥ }
{
    if test {
        Err(FlatFault::Range { line })
    } else {
        Ok(())
    }
}

// The first part of a written type, no deeper than pairs may be nested, that leaves its bounds.
fn shape_range(line: u32, shape: &Shape) -> Result<(), FlatFault>
    ensures judged { (known : List Typed) → nat_lt 8 (depth_of (resolved known shape.now)) ≡ false
        → IsJudged (range_in_type known (record { line = line; shape = shape.now })) result }
    ensures sure { IsErrOf result FlatFault.NoMemory → ⊥ }
{
    match shape {
        Shape::Int(low, high) => range_where(!(*low <= *high), line),
        Shape::Sym(names) => range_where(MOST_SYMBOLS < names.get().len(), line),
        Shape::Pair(pair) => {
            let pair = pair.get();
            shape_range(pair.left.line, &pair.left.shape)?;
            shape_range(pair.right.line, &pair.right.shape)
        }
        Shape::Unit | Shape::Bool | Shape::Text(_) | Shape::Named(_) => Ok(()),
    }
}

// The first part of a written type that leaves its bounds.
fn type_range(
    alloc: Global,
    types: &mut TypeStore,
    declared: &Scope,
    term: &TypeTerm,
) -> Result<(), FlatFault>
    requires { AreKnown types.old declared.now }
    ensures keeps { OnOk result (Keeps types.old types.new) }
    ensures judged { IsJudged (range_in_type (typed types.old declared.now) term.now) result }
{
    let number = number_of(alloc, types, declared, &term.shape)?;
    if is_deeper(types, number, MOST_LEVELS) {
        return Err(FlatFault::Range { line: term.line });
    }
    shape_range(term.line, &term.shape)
}

// Whether an expression has no type.
fn is_untyped(alloc: Global, expr: &Expr, of: &Kindred) -> Result<bool, NoMemory>
    ensures { IfOk result (λ r. r ≡ is_none (type_of_expr expr.now of.now)) }
{
    match type_of(alloc, expr, of) {
        Ok(_kindred) => Ok(false),
        Err(TypeFault::Mistyped) => Ok(true),
        Err(TypeFault::Range) => Ok(true),
        Err(TypeFault::NoMemory) => Err(NoMemory),
    }
}

// Whether an expression has no type, or one that does not lie inside another.
fn lies_outside(
    alloc: Global,
    expr: &Expr,
    of: &Kindred,
    target: &Kindred,
) -> Result<bool, NoMemory>
    ensures { IfOk result (λ r. r ≡ not (lies_in target.now (type_of_expr expr.now of.now))) }
{
    match type_of(alloc, expr, of) {
        Ok(kindred) => Ok(!lies_inside(&kindred, target)),
        Err(TypeFault::Mistyped) => Ok(true),
        Err(TypeFault::Range) => Ok(true),
        Err(TypeFault::NoMemory) => Err(NoMemory),
    }
}

// Whether an expression has no type, over items of a type.
fn filter_untyped(
    alloc: Global,
    types: &TypeStore,
    expr: &Expr,
    of: usize,
) -> Result<bool, NoMemory>
    requires { of < length types.now }
    ensures { IfOk result (λ r. r ≡ is_none (type_of_expr expr.now (type_at types.now of))) }
{
    let of = tree_of(alloc, types, of)?;
    is_untyped(alloc, expr, &of)
}

fn filter_leaves(
    alloc: Global,
    types: &TypeStore,
    declared: &Scope,
    of: usize,
    form: &TermForm,
) -> Result<bool, NoMemory>
    requires known { AreKnown types.now declared.now }
    requires of { of < length types.now }
    ensures { IfOk result
        (λ r. r ≡ leaves_by_filter (type_at types.now of)
        (expr_of (typed types.now declared.now) form.now)) }
{
    match expr_of_term(alloc, types, declared, form)? {
        Some(expr) => filter_untyped(alloc, types, &expr, of),
        None => Ok(false),
    }
}

// Whether an expression over items of a type has no type, or one that does not lie inside another.
fn map_outside(
    alloc: Global,
    types: &TypeStore,
    expr: &Expr,
    of: usize,
    target: &Kindred,
) -> Result<bool, NoMemory>
    requires { of < length types.now }
    ensures { IfOk result
        (λ r. r ≡ not (lies_in target.now (type_of_expr expr.now (type_at types.now of)))) }
{
    let of = tree_of(alloc, types, of)?;
    lies_outside(alloc, expr, &of, target)
}

// The same, by the number of the other type.
fn map_misses(
    alloc: Global,
    types: &TypeStore,
    expr: &Expr,
    of: usize,
    target: usize,
) -> Result<bool, NoMemory>
    requires of { of < length types.now }
    requires target { target < length types.now }
    ensures { IfOk result
        (λ r. r ≡ not
        (lies_in (type_at types.now target) (type_of_expr expr.now (type_at types.now of)))) }
{
    let target = tree_of(alloc, types, target)?;
    map_outside(alloc, types, expr, of, &target)
}

fn map_leaves(
    alloc: Global,
    types: &TypeStore,
    declared: &Scope,
    of: usize,
    target: usize,
    form: &TermForm,
) -> Result<bool, NoMemory>
    requires known { AreKnown types.now declared.now }
    requires of { of < length types.now }
    requires target { target < length types.now }
    ensures { IfOk result
        (λ r. r ≡ leaves_by_map (type_at types.now of) (type_at types.now target)
        (expr_of (typed types.now declared.now) form.now)) }
{
    match expr_of_term(alloc, types, declared, form)? {
        Some(expr) => map_misses(alloc, types, &expr, of, target),
        None => Ok(false),
    }
}

// Whether a channel between nodes of two types leaves its bounds.
fn channel_leaves(
    alloc: Global,
    types: &TypeStore,
    declared: &Scope,
    a: usize,
    b: usize,
    channel: &Channel,
) -> Result<bool, NoMemory>
    requires known { AreKnown types.now declared.now }
    requires first { a < length types.now }
    requires second { b < length types.now }
    ensures { IfOk result
        (λ r. r ≡ leaves (typed types.now declared.now) (type_at types.now a)
        (type_at types.now b) channel.now) }
{
    match channel {
        Channel::Fifo(size, held) | Channel::Shift(size, held) => {
            Ok((*size as usize) < held.len())
        }
        Channel::Filter(term) => filter_leaves(alloc, types, declared, a, &term.form),
        Channel::Map(term) => map_leaves(alloc, types, declared, a, b, &term.form),
        Channel::Sync | Channel::Lossy | Channel::SyncDrain | Channel::AsyncDrain => Ok(false),
        Channel::Fifo1(_) | Channel::Variable(_) | Channel::Quota(_) => Ok(false),
    }
}

// An item: a written type in it, or itself.
fn item_range(
    alloc: Global,
    types: &mut TypeStore,
    declared: &Scope,
    scope: &Scope,
    line: u32,
    form: &ItemForm,
) -> Result<(), FlatFault>
    requires known { AreKnown types.old declared.now }
    requires scope { AreKnown types.old scope.now }
    ensures keeps { OnOk result (Keeps types.old types.new) }
    ensures judged { IsJudged
        (range_in_item (typed types.old declared.now)
        (typed types.old scope.now) line form.now) result }
{
    match form {
        ItemForm::Node { term, .. } => type_range(alloc, types, declared, term),
        ItemForm::Joined {
            channel,
            first,
            second,
        } => {
            let (a, b) = (scope.find(first.as_slice()), scope.find(second.as_slice()));
            range_where(channel_leaves(alloc, types, declared, a, b, channel)?, line)
        }
        ItemForm::Used { .. } => Ok(()),
    }
}

fn parameters_range(
    alloc: Global,
    types: &mut TypeStore,
    declared: &Scope,
    parameters: &[Parameter],
) -> Result<(), FlatFault>
    requires { AreKnown types.old declared.now }
    ensures keeps { OnOk result (Keeps types.old types.new) }
    ensures judged { IsJudged
        (flat_map (λ (p : AParameter). range_in_type
        (typed types.old declared.now) p.term) parameters.now) result }
{
    for parameter in parameters {
        type_range(alloc, types, declared, &parameter.term)?;
    }
    Ok(())
}

fn items_range(
    alloc: Global,
    types: &mut TypeStore,
    declared: &Scope,
    scope: &Scope,
    items: &[Item],
) -> Result<(), FlatFault>
    requires known { AreKnown types.old declared.now }
    requires scope { AreKnown types.old scope.now }
    ensures keeps { OnOk result (Keeps types.old types.new) }
    ensures judged { IsJudged
        (flat_map (λ (i : AnItem). range_in_item (typed types.old declared.now)
        (typed types.old scope.now) i.line i.form) items.now) result }
{
    for item in items {
        item_range(alloc, types, declared, scope, item.line, &item.form)?;
    }
    Ok(())
}

// A connector: the types of its parameters, and then its items.
fn connector_range(
    alloc: Global,
    types: &mut TypeStore,
    declared: &Scope,
    connector: &Connector,
) -> Result<(), FlatFault>
    requires known { AreKnown types.old declared.now }
    requires distinct { twice_in_connector connector.now ≡ [] }
    ensures keeps { OnOk result (Keeps types.old types.new) }
    ensures judged { IsJudged
        (range_in_connector (typed types.old declared.now) connector.now) result }
{
    let mut scope = Scope::new(alloc);
    let _numbers = read_scope(alloc, types, declared, &mut scope, connector)?;
    parameters_range(alloc, types, declared, connector.parameters.as_slice())?;
    items_range(alloc, types, declared, &scope, connector.items.as_slice())
}

// The first type or item of a program that leaves its bounds, once nothing is declared.
fn declarations_range(
    alloc: Global,
    types: &mut TypeStore,
    declared: &mut Scope,
    declarations: &[Declaration],
) -> Result<(), FlatFault>
    requires known { AreKnown types.old declared.old }
    requires empty { declared.old ≡ [] }
    requires names { KeepsNames declarations.now }
    ensures { IsJudged (out_of_range declarations.now) result }
{
    for declaration in declarations {
        match declaration {
            Declaration::Named { name, term, .. } => {
                type_range(alloc, types, declared, term)?;
                declare_type(alloc, types, declared, name, &term.shape)?;
            }
            Declaration::Made(connector) => connector_range(alloc, types, declared, connector)?,
        }
    }
    Ok(())
}

/// The first type or item that leaves its bounds: an `int` whose bounds are out of order, a `sym`
/// of more than 1,024 names, pairs nested more than 8 deep, an expression of which a number may
/// leave -10^18 to 10^18, a divisor be below 1 or a text have more than 1,024 bytes, a map's type
/// that does not lie inside its target's, or more items in a buffer than its size. `NoMemory`
/// means out of memory.
pub fn judge_range(alloc: Global, program: &Program) -> Result<(), FlatFault>
    requires { KeepsNames program.now.declarations }
    ensures { IsJudged (out_of_range program.now.declarations) result }
{
    let mut types = TypeStore::new(alloc)?;
    let mut declared = Scope::new(alloc);
    declarations_range(
        alloc,
        &mut types,
        &mut declared,
        program.declarations.as_slice(),
    )
}
