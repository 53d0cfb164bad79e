//! The names in scope in a connector, with the numbers of their types.
ghost use Rattle.std.specs.Prelude.{◌≡◌, ◌∷◌, ◌++◌, [], false, map, slice_get, Some, IfOk, OnOk};
ghost use Rattle.std.specs.List.{flat_map};
ghost use Rattle.std.specs.Map.{keys_of};
ghost use Rattle.reo_trees.specs.declared.items.Item.{Item as AnItem};
ghost use Rattle.reo_trees.specs.declared.programs.Parameter.{Parameter as AParameter};
ghost use Rattle.reo_rules.specs.Lists.{each_after, has_name};
ghost use Rattle.reo_rules.specs.Types.{resolved};
ghost use Rattle.reo_rules.specs.Scopes.{parameter_names, parameter_type, node_types_in, scope_of};
ghost use Rattle.reo_rules.specs.Twice.{twice_in_parameter, twice_in_item, twice_in_connector};
ghost use Rattle.reo_rules_types.specs.Cells.{Keeps};
ghost use Rattle.reo_rules_types.specs.Scoped.{typed, AreKnown};
ghost use Rattle.reo_rules_types.specs.Signed.{AreOf, parameter_types};

use crate::scope::Scope;
use crate::shapes::number_of;
use crate::types::TypeStore;
use reo_trees::{Connector, Item, ItemForm, Parameter, Shape};
use reo_values::{Bytes, List, NoMemory};
use std::alloc::Global;

/// Adds a type's name with its written type. All types keep their numbers. `NoMemory` means out
/// of memory.
pub(crate) fn declare_type(
    alloc: Global,
    types: &mut TypeStore,
    declared: &mut Scope,
    name: &Bytes,
    shape: &Shape,
) -> Result<(), NoMemory>
    requires known { AreKnown types.old declared.old }
    requires new { has_name (keys_of declared.old) name.now ≡ false }
    ensures keeps { OnOk result (Keeps types.old types.new) }
    ensures known { OnOk result (AreKnown types.new declared.new) }
    ensures scope { OnOk result
        (typed types.new declared.new ≡ typed types.old declared.old
        ++ record { name = name.now; kindred = resolved (typed types.old declared.old) shape.now }
        ∷ []) }
{
    let number = number_of(alloc, types, declared, shape)?;
    declared.add(alloc, name.as_slice(), number)
}

// Adds a name with a written type, and answers the number of the type.
fn declare(
    alloc: Global,
    types: &mut TypeStore,
    declared: &Scope,
    scope: &mut Scope,
    name: &Bytes,
    shape: &Shape,
) -> Result<usize, NoMemory>
    requires known { AreKnown types.old declared.now }
    requires scope { AreKnown types.old scope.old }
    requires new { has_name (keys_of scope.old) name.now ≡ false }
    ensures keeps { OnOk result (Keeps types.old types.new) }
    ensures known { OnOk result (AreKnown types.new scope.new) }
    ensures scope { OnOk result
        (typed types.new scope.new ≡ typed types.old scope.old
        ++ record { name = name.now; kindred = resolved (typed types.old declared.now) shape.now }
        ∷ []) }
    ensures number { IfOk result
        (λ n. slice_get types.new n ≡ Some (resolved (typed types.old declared.now) shape.now)) }
{
    let number = number_of(alloc, types, declared, shape)?;
    scope.add(alloc, name.as_slice(), number)?;
    Ok(number)
}

// Adds the parameters of a connector, and answers the numbers of their types.
fn read_parameters(
    alloc: Global,
    types: &mut TypeStore,
    declared: &Scope,
    scope: &mut Scope,
    parameters: &[Parameter],
) -> Result<List<usize>, NoMemory>
    requires known { AreKnown types.old declared.now }
    requires scope { scope.old ≡ [] }
    requires distinct { each_after twice_in_parameter [] parameters.now ≡ [] }
    ensures keeps { OnOk result (Keeps types.old types.new) }
    ensures known { OnOk result (AreKnown types.new scope.new) }
    ensures scope { OnOk result
        (typed types.new scope.new
        ≡ map (parameter_type (typed types.old declared.now)) parameters.now) }
    ensures numbers { IfOk result
        (λ numbers. AreOf types.new numbers
        (map (λ (p : AParameter). resolved
        (typed types.old declared.now) p.term.shape) parameters.now)) }
{
    let mut numbers = List::new(alloc);
    for parameter in parameters {
        let (name, shape) = (&parameter.name, &parameter.term.shape);
        let number = declare(alloc, types, declared, scope, name, shape)?;
        numbers.push(number)?;
    }
    Ok(numbers)
}

// Adds the nodes of a connector behind its parameters.
fn read_nodes(
    alloc: Global,
    types: &mut TypeStore,
    declared: &Scope,
    scope: &mut Scope,
    parameters: &[Parameter],
    items: &[Item],
) -> Result<(), NoMemory>
    requires known { AreKnown types.old declared.now }
    requires scope { AreKnown types.old scope.old }
    requires names { keys_of scope.old ≡ parameter_names parameters.now }
    requires distinct { each_after
        (λ before (i : AnItem). twice_in_item parameters.now before i.line i.form) [] items.now
        ≡ [] }
    ensures keeps { OnOk result (Keeps types.old types.new) }
    ensures known { OnOk result (AreKnown types.new scope.new) }
    ensures scope { OnOk result (typed types.new scope.new ≡ typed types.old scope.old ++ flat_map
        (λ (i : AnItem). node_types_in (typed types.old declared.now) i.form) items.now) }
{
    for item in items {
        if let ItemForm::Node { name, term } = &item.form {
            declare(alloc, types, declared, scope, name, &term.shape)?;
        }
    }
    Ok(())
}

/// Adds the parameters and nodes of a connector to an empty scope, and answers the numbers of the
/// parameters' types. All types keep their numbers. `NoMemory` means out of memory.
pub(crate) fn read_scope(
    alloc: Global,
    types: &mut TypeStore,
    declared: &Scope,
    scope: &mut Scope,
    connector: &Connector,
) -> Result<List<usize>, NoMemory>
    requires known { AreKnown types.old declared.now }
    requires scope { scope.old ≡ [] }
    requires distinct { twice_in_connector connector.now ≡ [] }
    ensures keeps { OnOk result (Keeps types.old types.new) }
    ensures known { OnOk result (AreKnown types.new scope.new) }
    ensures scope { OnOk result
        (typed types.new scope.new ≡ scope_of (typed types.old declared.now) connector.now) }
    ensures numbers { IfOk result
        (λ numbers. AreOf types.new numbers
        (parameter_types (typed types.old declared.now) connector.now)) }
{
    let parameters = connector.parameters.as_slice();
    let numbers = read_parameters(alloc, types, declared, scope, parameters)?;
    let items = connector.items.as_slice();
    read_nodes(alloc, types, declared, scope, parameters, items)?;
    Ok(numbers)
}
