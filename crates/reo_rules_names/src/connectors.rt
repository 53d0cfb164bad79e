//! Connectors by name, with the ways of their parameters.
ghost use Rattle.std.specs.Prelude.{◌≡◌, [], ◌∷◌, ◌++◌, IfOk, OnOk, List, map};
ghost use Rattle.reo_trees.specs.declared.programs.Parameter.{Parameter as AParameter};
ghost use Rattle.reo_trees.specs.declared.programs.Connector.{Connector as AConnector};
ghost use Rattle.reo_rules.specs.Scopes.{parameters_named};

use reo_rules::Names;
use reo_trees::{Connector, Parameter};
use reo_values::{List, NoMemory};
use std::alloc::Global;

/// The connectors that were declared so far: the name of each, and for each of its parameters
/// whether it is an `in`.
#[derive(Drop)]
pub(crate) struct Connectors {
    names: Names,
    ways: List<List<bool>>,
}

impl Connectors {
    ghost use Rattle.reo_rules_names.specs.Connectors.{AreConnectors};

    /// No connectors.
    pub(crate) fn new(alloc: Global) -> Self
        ensures { AreConnectors [] result }
    {
        Connectors {
            names: Names::new(alloc),
            ways: List::new(alloc),
        }
    }

    /// For each parameter of the first connector of this name whether it is an `in`; no ways
    /// where there is no such connector.
    pub(crate) fn ways(&self, name: &[u8]) -> &[bool]
        ensures { (known : List AConnector) → AreConnectors known self.now
            → result.now ≡ map (λ (p : AParameter). p.inward) (parameters_named known name.now) }
    {
        match self.names.find(name) {
            Some(number) => match self.ways.get(number) {
                Some(ways) => ways.as_slice(),
                None => &[],
            },
            None => &[],
        }
    }

    /// One more connector. `NoMemory` is out of memory.
    pub(crate) fn add(&mut self, alloc: Global, connector: &Connector) -> Result<(), NoMemory>
        ensures { OnOk result ((known : List AConnector) → AreConnectors known self.old
            → AreConnectors (known ++ connector.now ∷ []) self.new) }
    {
        if self.names.note(alloc, connector.name.as_slice())? {
            return Ok(());
        }
        let ways = ways_of(alloc, connector.parameters.as_slice())?;
        self.ways.push(ways)
    }
}

/// For each parameter whether it is an `in`. `NoMemory` is out of memory.
fn ways_of(alloc: Global, parameters: &[Parameter]) -> Result<List<bool>, NoMemory>
    ensures { IfOk result (λ ways. ways ≡ map (λ (p : AParameter). p.inward) parameters.now) }
{
    let mut ways = List::new(alloc);
    for parameter in parameters {
        ways.push(parameter.inward)?;
    }
    Ok(ways)
}
