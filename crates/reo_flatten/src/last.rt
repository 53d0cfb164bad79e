//! The last step: a circuit from what a program unfolds to, or the node of its first cycle.
ghost use Rattle.std.specs.Prelude.{◌≡◌, [], IfOk, MatchResult};
ghost use Rattle.std.specs.List.{All};
ghost use Rattle.reo_rules.specs.Scopes.{connectors_of};
ghost use Rattle.reo_flat.specs.Flat.{wiring_of_program, homes_in, nodes_of, ports_of};
ghost use Rattle.reo_flat.specs.Refusals.{breaks, IsAccepted, IsRefused};
ghost use Rattle.reo_flat.specs.flatten_laws.Plain.{HasPlainNames};
ghost use Rattle.reo_flatten.specs.Parts.{IsParts};

use reo_flat::{circuits_are_made, circuits_are_small, homes_are_nodes, homes_fit};
use reo_kinds::Kind;
use reo_net_base::{Joint, Port, Ports};
use reo_net_circuit::{Circuit, NetFault};
use reo_rules::FlatFault;
use reo_trees::Program;
use reo_values::{Bytes, List};
use std::alloc::Global;

/// A circuit with no offers, its ports, the flat names of its nodes, and the number of each
/// joint's node.
#[derive(Drop)]
pub struct Flat {
    pub circuit: Circuit<Kind>,
    pub ports: Ports,
    pub nodes: List<Bytes>,
    pub homes: List<u32>,
}

/// What a flat circuit is made from.
#[derive(Drop)]
pub struct Parts {
    pub kinds: List<Kind>,
    pub ports: List<Port>,
    pub joints: List<Joint>,
    pub nodes: List<Bytes>,
    pub homes: List<u32>,
}

/// The circuit of a program that breaks no rule but maybe that on cycles, or the first node on a
/// cycle.
pub fn close(alloc: Global, program: &Program, parts: Parts) -> Result<Flat, FlatFault>
    requires no_break { breaks program.now.declarations ≡ [] }
    requires names { All HasPlainNames (connectors_of program.now.declarations) }
    requires parts { IsParts program.now.declarations parts }
    ensures exact { MatchResult result (λ flat. IsAccepted program.now) (IsRefused program.now) }
    ensures circuit { IfOk result (λ flat. flat.circuit
        ≡ wiring_of_program program.now.declarations) }
    ensures ports { IfOk result (λ flat. flat.ports.list ≡ ports_of program.now.declarations) }
    ensures nodes { IfOk result (λ flat. flat.nodes ≡ nodes_of program.now.declarations) }
    ensures homes { IfOk result (λ flat. flat.homes ≡ homes_in program.now.declarations) }
{
    circuits_are_made();
    circuits_are_small();
    homes_fit();
    homes_are_nodes();
    let Parts {
        kinds,
        ports,
        joints,
        nodes,
        homes,
    } = parts;
    let count = ports.len();
    match Circuit::new(alloc, kinds, count, joints) {
        Ok(circuit) => Ok(Flat {
            circuit,
            ports: Ports { list: ports },
            nodes,
            homes,
        }),
        Err(NetFault::Cycle { joint }) => {
            let home = *homes.at(joint) as usize;
            match nodes.at(home).copy(alloc) {
                Ok(node) => Err(FlatFault::Cycle { node }),
                Err(_) => Err(FlatFault::NoMemory),
            }
        }
        Err(NetFault::NoMemory) => Err(FlatFault::NoMemory),
        Err(NetFault::Ends { .. }) => unreachable!(),
        Err(NetFault::Way { .. }) => unreachable!(),
    }
}
