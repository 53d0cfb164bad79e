//! Scripts for the ports of a circuit.
ghost use Rattle.std.specs.Prelude.{◌≡◌, map, IfOk};
ghost use Rattle.std.specs.List.{All};
ghost use Rattle.reo_net_base.specs.declared.port.Port.{Port as APort};
ghost use Rattle.reo_rules.specs.literals.Items.{HasFewNames};
ghost use Rattle.reo_script.specs.scripts.ScriptRules.{port_number, item_at, the_number, the_item, scripted, component_for};

use crate::judging::port_named;
use crate::scripts::{Action, ActionForm, Component, ComponentForm};
use reo_net_base::Port;
use reo_rules::{Names, item_of};
use reo_trees::Literal;
use reo_values::{Bytes, List, NoMemory, Value};
use std::alloc::Global;

/// The number of the port of a name; where there is none, the count of ports.
fn number_of(names: &Names, ports: &[Port], name: &Bytes) -> usize
    requires { names.now ≡ map (λ (p : APort). p.name) ports.now }
    ensures { result ≡ the_number ports.now (port_number ports.now name.now) }
{
    match names.find(name.as_slice()) {
        Some(number) => number,
        None => ports.len(),
    }
}

/// The item that a literal is at a port; `unit` where it is none.
fn item(
    alloc: Global,
    names: &Names,
    ports: &[Port],
    name: &Bytes,
    literal: &Literal,
) -> Result<Value, NoMemory>
    requires names { names.now ≡ map (λ (p : APort). p.name) ports.now }
    requires few { All (λ (p : APort). HasFewNames p.kindred) ports.now }
    ensures { IfOk result (λ item. item ≡ the_item (item_at ports.now name.now literal.now)) }
{
    let Some(port) = port_named(names, ports, name.as_slice()) else {
        return Ok(Value::Unit);
    };
    match item_of(alloc, &port.kindred, literal)? {
        Some(item) => Ok(item),
        None => Ok(Value::Unit),
    }
}

/// An action for these ports.
#[cycle(action)]
fn action(
    alloc: Global,
    names: &Names,
    ports: &[Port],
    form: &ActionForm,
) -> Result<Action, NoMemory>
    requires names { names.now ≡ map (λ (p : APort). p.name) ports.now }
    requires few { All (λ (p : APort). HasFewNames p.kindred) ports.now }
    ensures { IfOk result (λ made. made ≡ scripted ports.now form.now) }
{
    match form {
        ActionForm::Write {
            port,
            literal,
            within,
            ..
        } => Ok(Action::Write {
            port: number_of(names, ports, port),
            item: item(alloc, names, ports, port, literal)?,
            within: *within,
        }),
        ActionForm::Take { port, within, .. } => Ok(Action::Take {
            port: number_of(names, ports, port),
            within: *within,
        }),
        ActionForm::Pause { rounds } => Ok(Action::Pause { rounds: *rounds }),
        ActionForm::Repeat { times, body } => Ok(Action::Repeat {
            times: *times,
            body: actions(alloc, names, ports, body.as_slice())?,
        }),
    }
}

/// Actions for these ports.
#[cycle(action)]
fn actions(
    alloc: Global,
    names: &Names,
    ports: &[Port],
    forms: &[ActionForm],
) -> Result<List<Action>, NoMemory>
    requires names { names.now ≡ map (λ (p : APort). p.name) ports.now }
    requires few { All (λ (p : APort). HasFewNames p.kindred) ports.now }
    ensures { IfOk result (λ made. made ≡ map (scripted ports.now) forms.now) }
{
    let mut made = List::new(alloc);
    for form in forms {
        made.push(action(alloc, names, ports, form)?)?;
    }
    Ok(made)
}

/// A component for these ports.
fn component(
    alloc: Global,
    names: &Names,
    ports: &[Port],
    form: &ComponentForm,
) -> Result<Component, NoMemory>
    requires names { names.now ≡ map (λ (p : APort). p.name) ports.now }
    requires few { All (λ (p : APort). HasFewNames p.kindred) ports.now }
    ensures { IfOk result (λ made. made ≡ component_for ports.now form.now) }
{
    let name = form.name.copy(alloc)?;
    let actions = actions(alloc, names, ports, form.actions.as_slice())?;
    Ok(Component { name, actions })
}

/// Components for these ports.
pub(crate) fn components_for(
    alloc: Global,
    names: &Names,
    ports: &[Port],
    forms: &[ComponentForm],
) -> Result<List<Component>, NoMemory>
    requires names { names.now ≡ map (λ (p : APort). p.name) ports.now }
    requires few { All (λ (p : APort). HasFewNames p.kindred) ports.now }
    ensures { IfOk result (λ made. made ≡ map (component_for ports.now) forms.now) }
{
    let mut made = List::new(alloc);
    for form in forms {
        made.push(component(alloc, names, ports, form)?)?;
    }
    Ok(made)
}
