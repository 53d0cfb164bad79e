//! The names of one connector.
ghost use Rattle.std.specs.Prelude.{◌≡◌, List, [], ◌++◌, IfOk, IfSome, OnOk};
ghost use Rattle.std.specs.Option.{option_copied};
ghost use Rattle.reo_rules.specs.Types.{Typed, type_named};
ghost use Rattle.reo_rules.specs.Scopes.{scope_of, parameter_names, node_names_in};
ghost use Rattle.reo_rules.specs.Twice.{twice_in_connector, twice_in_parameter};
ghost use Rattle.reo_rules.specs.Lists.{each_after};
ghost use Rattle.reo_unfold.specs.Known.{shape_type};
ghost use Rattle.reo_unfold.specs.Fits.{IsFew, FormFits, IsFit};
ghost use Rattle.reo_unfold.specs.Local.{IsNew, IsLocal, node_place, shape_in};

use reo_rules::Names;
use reo_trees::{Connector, Item, ItemForm, Parameter, Shape};
use reo_values::{Bytes, List, NoMemory};
use std::alloc::Global;

/// The names of a connector's parameters and then of its nodes, and the items that declare these.
#[derive(Drop)]
pub struct Local {
    pub names: Names,
    pub nodes: List<usize>,
}

/// The names of parameters, of which none stands twice.
fn parameter_names(alloc: Global, parameters: &[Parameter]) -> Result<Names, NoMemory>
    requires { each_after twice_in_parameter [] parameters.now ≡ [] }
    ensures { IfOk result (λ names. names ≡ parameter_names parameters.now) }
{
    let mut names = Names::new(alloc);
    for parameter in parameters {
        names.note(alloc, parameter.name.as_slice())?;
    }
    Ok(names)
}

impl Local {
    /// Notes the node that an item declares, which is not there yet.
    fn note(&mut self, alloc: Global, place: usize, form: &ItemForm) -> Result<(), NoMemory>
        requires { IsNew self.old.names form.now }
        ensures names { OnOk result (self.new.names ≡ self.old.names ++ node_names_in form.now) }
        ensures nodes { OnOk result (self.new.nodes ≡ self.old.nodes ++ node_place place form.now) }
    {
        match form {
            ItemForm::Node { name, .. } => {
                self.names.note(alloc, name.as_slice())?;
                self.nodes.push(place)
            }
            _ => Ok(()),
        }
    }
}

/// The names of a connector, of which none stands twice. `NoMemory`: out of memory.
pub fn local_of(alloc: Global, connector: &Connector) -> Result<Local, NoMemory>
    requires { twice_in_connector connector.now ≡ [] }
    ensures { IfOk result (IsLocal connector.now) }
{
    let mut local = Local {
        names: parameter_names(alloc, connector.parameters.as_slice())?,
        nodes: List::new(alloc),
    };
    for (place, item) in connector.items.as_slice().iter().enumerate() {
        local.note(alloc, place, &item.form)?;
    }
    Ok(local)
}

/// The type with which an item declares a node.
fn node_shape(item: &Item) -> Option<&Shape>
    ensures is { option_copied result ≡ shape_in item.now.form }
    ensures few { FormFits item.now.form → IfSome result (λ shape. IsFew shape.now) }
{
    match &item.form {
        ItemForm::Node { term, .. } => Some(&term.shape),
        _ => None,
    }
}

impl Local {
    /// The type with which a connector declares a parameter or a node, if it declares one of this
    /// name.
    pub fn shape_of<'a>(&self, connector: &'a Connector, name: &Bytes) -> Option<&'a Shape>
        requires { IsLocal connector.now self.now }
        ensures is { (ts : List Typed) → shape_type ts (option_copied result) ≡ type_named
            (scope_of ts connector.now) name.now }
        ensures few { IsFit connector.now → IfSome result (λ shape. IsFew shape.now) }
    {
        let parameters = connector.parameters.len();
        match self.names.find(name.as_slice()) {
            Some(number) => {
                if number < parameters {
                    Some(&connector.parameters.at(number).term.shape)
                } else {
                    node_shape(connector.items.at(*self.nodes.at(number - parameters)))
                }
            }
            None => None,
        }
    }
}
