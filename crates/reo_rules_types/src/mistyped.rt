//! Items whose types do not fit.
ghost use Rattle.std.specs.Prelude.{◌≡◌, ◌∷◌, ◌++◌, [], false, List, IfOk, OnOk};
ghost use Rattle.std.specs.List.{flat_map};
ghost use Rattle.reo_trees.specs.declared.items.Item.{Item as AnItem};
ghost use Rattle.reo_trees.specs.declared.programs.Declaration.{Declaration as ADeclaration};
ghost use Rattle.reo_trees.specs.declared.programs.Declaration.TheVariants as declarations;
ghost use Rattle.reo_rules.specs.declared.fault.FlatFault.TheVariants as faults;
ghost use Rattle.reo_rules.specs.Lists.{where_true, has_name};
ghost use Rattle.reo_rules.specs.Types.{types_of};
ghost use Rattle.reo_rules.specs.Scopes.{connectors_of, connector_names, parameters_named};
ghost use Rattle.reo_rules.specs.Twice.{twice_in_connector};
ghost use Rattle.reo_rules.specs.Unknown.{unknown_in};
ghost use Rattle.reo_rules.specs.Mistyped.{is_use_mistyped, is_mistyped, mistyped_in, mistyped};
ghost use Rattle.reo_rules.specs.Judged.{IsJudged};
ghost use Rattle.reo_rules.specs.Rules.{KeepsNames};
ghost use Rattle.reo_rules_types.specs.Cells.{Keeps};
ghost use Rattle.reo_rules_types.specs.Scoped.{typed, AreKnown};
ghost use Rattle.reo_rules_types.specs.Stands.{Stands};

use crate::channels::{channel_mistyped, use_mistyped};
use crate::known::Known;
use crate::scope::Scope;
use crate::scopes::{declare_type, read_scope};
use crate::types::TypeStore;
use reo_rules::{FlatFault, Names};
use reo_trees::{Connector, Declaration, Item, ItemForm, Program};
use reo_values::{Bytes, List, NoMemory};
use std::alloc::Global;

// Whether some argument of a use does not fit its parameter.
fn used_mistyped(
    types: &TypeStore,
    known: &Known,
    scope: &Scope,
    name: &Bytes,
    arguments: &[Bytes],
) -> bool
    requires { AreKnown types.now scope.now }
    ensures { (before : List ADeclaration) → Stands before types.now known.now
        → result ≡ is_use_mistyped (types_of before) (typed types.now scope.now) arguments.now
        (parameters_named (connectors_of before) name.now) }
{
    match known.connectors.find(name.as_slice()) {
        Some(place) => match known.signatures.get(place) {
            Some(numbers) => use_mistyped(types, scope, arguments, numbers.as_slice()),
            None => false,
        },
        None => false,
    }
}

// Whether an item does not fit.
fn item_mistyped(
    alloc: Global,
    types: &mut TypeStore,
    known: &Known,
    scope: &Scope,
    form: &ItemForm,
) -> Result<bool, NoMemory>
    requires known { AreKnown types.old known.now.declared }
    requires scope { AreKnown types.old scope.now }
    ensures keeps { OnOk result (Keeps types.old types.new) }
    ensures test { (before : List ADeclaration) → Stands before types.old known.now → IfOk result
        (λ r. r ≡ is_mistyped (types_of before) (connectors_of before)
        (typed types.old scope.now) form.now) }
{
    match form {
        ItemForm::Node { .. } => Ok(false),
        ItemForm::Joined {
            channel,
            first,
            second,
        } => {
            let (a, b) = (scope.find(first.as_slice()), scope.find(second.as_slice()));
            channel_mistyped(alloc, types, &known.declared, a, b, channel)
        }
        ItemForm::Used { name, arguments } => {
            Ok(used_mistyped(types, known, scope, name, arguments.as_slice()))
        }
    }
}

// The first item of a connector that does not fit.
fn items_mistyped(
    alloc: Global,
    types: &mut TypeStore,
    known: &Known,
    scope: &Scope,
    items: &[Item],
) -> Result<(), FlatFault>
    requires known { AreKnown types.old known.now.declared }
    requires scope { AreKnown types.old scope.now }
    ensures keeps { OnOk result (Keeps types.old types.new) }
    ensures judged { (before : List ADeclaration) → Stands before types.old known.now
        → IsJudged (flat_map
        (λ (i : AnItem). where_true
        (is_mistyped (types_of before) (connectors_of before) (typed types.old scope.now) i.form)
        (faults.Mistyped i.line)) items.now) result }
{
    for item in items {
        if item_mistyped(alloc, types, known, scope, &item.form)? {
            return Err(FlatFault::Mistyped { line: item.line });
        }
    }
    Ok(())
}

// A connector: its items are judged, and then it is known.
fn connector_mistyped(
    alloc: Global,
    types: &mut TypeStore,
    known: &mut Known,
    connector: &Connector,
) -> Result<(), FlatFault>
    requires known { AreKnown types.old known.old.declared }
    requires distinct { twice_in_connector connector.now ≡ [] }
    ensures known { OnOk result (AreKnown types.new known.new.declared) }
    ensures judged { (before : List ADeclaration) → Stands before types.old known.old
        → IsJudged (mistyped_in before (declarations.Made connector.now)) result }
    ensures stands { (before : List ADeclaration) → Stands before types.old known.old
        → has_name (connector_names before) connector.now.name ≡ false
        → unknown_in before (declarations.Made connector.now) ≡ []
        → OnOk result
        (Stands (before ++ declarations.Made connector.now ∷ []) types.new known.new) }
{
    let mut scope = Scope::new(alloc);
    let numbers = read_scope(alloc, types, &known.declared, &mut scope, connector)?;
    items_mistyped(alloc, types, known, &scope, connector.items.as_slice())?;
    known.connectors.note(alloc, connector.name.as_slice())?;
    known.signatures.push(numbers)?;
    Ok(())
}

// The first item of a program that does not fit, once nothing is known.
fn declarations_mistyped(
    alloc: Global,
    types: &mut TypeStore,
    known: &mut Known,
    declarations: &[Declaration],
) -> Result<(), FlatFault>
    requires known { AreKnown types.old known.old.declared }
    requires stands { Stands [] types.old known.old }
    requires names { KeepsNames declarations.now }
    ensures { IsJudged (mistyped declarations.now) result }
{
    for declaration in declarations {
        match declaration {
            Declaration::Named { name, term, .. } => {
                declare_type(alloc, types, &mut known.declared, name, &term.shape)?;
            }
            Declaration::Made(connector) => {
                connector_mistyped(alloc, types, known, connector)?;
            }
        }
    }
    Ok(())
}

/// The first item whose types do not fit: a channel that joins nodes of two types, a literal that
/// is no item of its node's type, an expression of another kind than is wanted or of none, or an
/// argument of another type than its parameter. `NoMemory` means out of memory.
pub fn judge_mistyped(alloc: Global, program: &Program) -> Result<(), FlatFault>
    requires { KeepsNames program.now.declarations }
    ensures { IsJudged (mistyped program.now.declarations) result }
{
    let mut types = TypeStore::new(alloc)?;
    let mut known = Known {
        declared: Scope::new(alloc),
        connectors: Names::new(alloc),
        signatures: List::new(alloc),
    };
    declarations_mistyped(
        alloc,
        &mut types,
        &mut known,
        program.declarations.as_slice(),
    )
}
