//! The unfolding of `main`.
ghost use Rattle.std.specs.Prelude.{◌≡◌, ◌<◌, IfOk, Some, length, position, bytes_eq, codes};
ghost use Rattle.reo_values.specs.Valid.{AreDistinct};
ghost use Rattle.reo_unfold.specs.Ground.{IsGround};
ghost use Rattle.reo_unfold.specs.Fits.{AreFit};
ghost use Rattle.reo_flatten.specs.NodeEnds.{placed_with, AreEnds};
ghost use Rattle.reo_flatten.specs.Parts.{IsBegun};

use crate::ends::{NodeEnds, ends_at_nodes};
use crate::main_ports::{names_of, port_ends, port_kinds, ports_of};
use reo_net_base::Port;
use reo_rules::Names;
use reo_trees::Declaration;
use reo_unfold::{Ground, Unfolded, connector, connector_at};
use reo_values::{Bytes, List, NoMemory};
use std::alloc::Global;

/// The ports of `main`, and what it unfolds to.
#[derive(Drop)]
pub struct UnfoldedMain {
    pub ports: List<Port>,
    pub made: Unfolded,
}

/// The unfolding of `main`, which is the connector of this number. `NoMemory`: out of memory.
pub fn begin(
    alloc: Global,
    declarations: &[Declaration],
    ground: &Ground,
    number: usize,
) -> Result<UnfoldedMain, NoMemory>
    requires ground { IsGround declarations.now ground.now }
    requires fit { AreFit declarations.now }
    requires main { position (bytes_eq (codes "main")) ground.now.connectors ≡ Some number }
    ensures { IfOk result (IsBegun declarations.now) }
{
    let main = connector_at(declarations, ground.stands.at(number).place);
    let parameters = main.parameters.as_slice();
    let ports = ports_of(alloc, &ground.types, parameters)?;
    let arguments = names_of(alloc, parameters)?;
    let mut made = Unfolded {
        nodes: names_of(alloc, parameters)?,
        kinds: port_kinds(alloc, ports.as_slice())?,
        ends: port_ends(alloc, ports.as_slice())?,
    };
    let mut path = Bytes::new(alloc);
    connector(
        alloc,
        declarations,
        ground,
        number,
        arguments.as_slice(),
        &mut path,
        &mut made,
    )?;
    Ok(UnfoldedMain { ports, made })
}

/// Nodes by name, of which no two have one name.
fn numbers_of(alloc: Global, nodes: &[Bytes]) -> Result<Names, NoMemory>
    requires { AreDistinct nodes.now }
    ensures { IfOk result (λ names. names ≡ nodes.now) }
{
    let mut names = Names::new(alloc);
    for node in nodes {
        names.note(alloc, node.as_slice())?;
    }
    Ok(names)
}

/// The ends at the nodes of an unfolding. `NoMemory`: out of memory.
pub fn ends_at(alloc: Global, made: &Unfolded) -> Result<NodeEnds, NoMemory>
    requires distinct { AreDistinct made.now.nodes }
    requires even { length made.now.ends ≡ length made.now.kinds }
    ensures { IfOk result (AreEnds made.now.nodes (placed_with made.now.kinds made.now.ends)) }
{
    let nodes = made.nodes.as_slice();
    let names = numbers_of(alloc, nodes)?;
    ends_at_nodes(
        alloc,
        nodes,
        &names,
        made.kinds.as_slice(),
        made.ends.as_slice(),
    )
}
