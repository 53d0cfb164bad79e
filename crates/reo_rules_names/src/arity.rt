//! Uses with another number of arguments than their connector has parameters.
ghost use Rattle.std.specs.Prelude.{◌≡◌, [], List, IsErrOf};
ghost use Rattle.std.specs.List.{flat_map};
ghost use Rattle.reo_trees.specs.declared.items.Item.{Item as AnItem};
ghost use Rattle.reo_trees.specs.declared.programs.Connector.{Connector as AConnector};
ghost use Rattle.reo_rules.specs.Arity.{arity_in_item, arity};
ghost use Rattle.reo_rules.specs.Judged.{IsJudged};
ghost use Rattle.reo_rules_names.specs.Connectors.{AreConnectors};

use crate::connectors::Connectors;
use reo_rules::FlatFault;
use reo_trees::{Declaration, Item, ItemForm, Program};
use std::alloc::Global;

/// An item.
fn item_arity(connectors: &Connectors, line: u32, form: &ItemForm) -> Result<(), FlatFault>
    ensures judged { (known : List AConnector) → AreConnectors known connectors.now
        → IsJudged (arity_in_item known line form.now) result }
    ensures sure { IsErrOf result FlatFault.NoMemory → ⊥ }
{
    match form {
        ItemForm::Used { name, arguments } => {
            if arguments.len() == connectors.ways(name.as_slice()).len() {
                Ok(())
            } else {
                Err(FlatFault::Arity { line })
            }
        }
        ItemForm::Node { .. } | ItemForm::Joined { .. } => Ok(()),
    }
}

/// Items one after another.
fn items_arity(connectors: &Connectors, items: &[Item]) -> Result<(), FlatFault>
    ensures judged { (known : List AConnector) → AreConnectors known connectors.now
        → IsJudged (flat_map (λ (i : AnItem). arity_in_item known i.line i.form) items.now) result }
    ensures sure { IsErrOf result FlatFault.NoMemory → ⊥ }
{
    for item in items {
        item_arity(connectors, item.line, &item.form)?;
    }
    Ok(())
}

/// Declarations one after another; the connectors are noted.
fn declarations_arity(
    alloc: Global,
    connectors: &mut Connectors,
    declarations: &[Declaration],
) -> Result<(), FlatFault>
    requires { AreConnectors [] connectors.old }
    ensures { IsJudged (arity declarations.now) result }
{
    for declaration in declarations {
        if let Declaration::Made(connector) = declaration {
            items_arity(connectors, connector.items.as_slice())?;
            connectors.add(alloc, connector)?;
        }
    }
    Ok(())
}

/// Each use has as many arguments as the first connector of its name before has parameters; one
/// that is not declared has none. Where one has not, `Arity` is the line of the first. `NoMemory`
/// is out of memory.
pub fn judge_arity(alloc: Global, program: &Program) -> Result<(), FlatFault>
    ensures { IsJudged (arity program.now.declarations) result }
{
    let mut connectors = Connectors::new(alloc);
    declarations_arity(alloc, &mut connectors, program.declarations.as_slice())
}
