//! The places of a script that name a port.
ghost use Rattle.std.specs.Prelude.{◌≡◌, ◌++◌, IfOk, OnOk, map};
ghost use Rattle.std.specs.List.{flat_map};
ghost use Rattle.reo_script.specs.scripts.ScriptRules.{namings, namings_in};
ghost use Rattle.reo_script.specs.Places.{naming_of};

use crate::scripts::{ActionForm, ComponentForm};
use reo_trees::Literal;
use reo_values::{Bytes, List, NoMemory};
use std::alloc::Global;

/// A place that names a port: of a write with its literal, of a take without.
#[derive(Clone, Copy)]
pub struct PortPlace<'a> {
    pub line: u32,
    pub port: &'a Bytes,
    pub literal: Option<&'a Literal>,
}

/// Adds the places of an action.
#[cycle(note)]
fn note<'a>(action: &'a ActionForm, places: &mut List<PortPlace<'a>>) -> Result<(), NoMemory>
    ensures { OnOk result
        (map naming_of places.new ≡ map naming_of places.old ++ namings action.now) }
{
    match action {
        ActionForm::Write {
            line,
            port,
            literal,
            ..
        } => places.push(PortPlace {
            line: *line,
            port,
            literal: Some(literal),
        }),
        ActionForm::Take { line, port, .. } => places.push(PortPlace {
            line: *line,
            port,
            literal: None,
        }),
        ActionForm::Pause { .. } => Ok(()),
        ActionForm::Repeat { body, .. } => note_all(body.as_slice(), places),
    }
}

/// Adds the places of actions.
#[cycle(note)]
fn note_all<'a>(actions: &'a [ActionForm], places: &mut List<PortPlace<'a>>) -> Result<(), NoMemory>
    ensures { OnOk result
        (map naming_of places.new ≡ map naming_of places.old ++ flat_map namings actions.now) }
{
    for action in actions {
        note(action, places)?;
    }
    Ok(())
}

/// The places of a component.
pub fn places_in<'a>(
    alloc: Global,
    component: &'a ComponentForm,
) -> Result<List<PortPlace<'a>>, NoMemory>
    ensures { IfOk result (λ places. map naming_of places ≡ namings_in component.now) }
{
    let mut places = List::new(alloc);
    note_all(component.actions.as_slice(), &mut places)?;
    Ok(places)
}

/// The places of all components.
pub fn places_of<'a>(
    alloc: Global,
    components: &'a [ComponentForm],
) -> Result<List<PortPlace<'a>>, NoMemory>
    ensures { IfOk result (λ places. map naming_of places ≡ flat_map namings_in components.now) }
{
    let mut places = List::new(alloc);
    for component in components {
        note_all(component.actions.as_slice(), &mut places)?;
    }
    Ok(places)
}
