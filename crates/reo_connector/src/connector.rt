//! A connector that is held.
ghost use Rattle.std.specs.Prelude.{◌≡◌, ◌≤◌, ◌^◌, length, bytes_eq};
ghost use Rattle.std.specs.List.{position_from};
ghost use Rattle.reo_net_base.specs.declared.port.Port.{Port as APort};
ghost use Rattle.reo_script.specs.scripts.ScriptRules.{port_number};
ghost use Rattle.reo_runs.specs.run_premises.PortsOf.{HasPorts};
ghost use Rattle.reo_trace_reader.specs.texts.Lines.{AreTold};
ghost use Rattle.reo_connector.specs.Held.{states_of};

use reo_kinds::Kind;
use reo_net_base::{Port, Ports};
use reo_runner::Engine;
use std::marker::Model;

/// A circuit text has at most so many bytes.
pub const MOST_BYTES: usize = 1_048_576;

/// A circuit with what is offered at its ports, as a program holds it.
#[derive(Drop)]
pub struct Connector {
    pub(crate) engine: Engine<Kind>,
    pub(crate) ports: Ports,
}

impl Model for Connector {
    ghost use Rattle.std.specs.Prelude.{◌≡◌, ◌≤◌, ◌^◌, length, map};
    ghost use Rattle.std.specs.Coded.{codes};
    ghost use Rattle.reo_kinds.specs.Kinds.{port_state_of};
    ghost use Rattle.reo_runs.specs.run_premises.PortsOf.{HasPorts};
    ghost use Rattle.reo_trace_reader.specs.texts.Lines.{AreTold};
    ghost use Rattle.reo_connector.specs.Held.{Held};
    ghost use Rattle.reo_values.specs.contracts.kindred.Kindred as kindred;
    ghost use Rattle.reo_kinds.specs.contracts.kind.Kind as kind;

    ghost Value = { Held };

    ghost coded = { Prim.hlevel (codes, kindred.the_row.coded, kind.the_row.coded) };

    ghost view = { λ c. record {
      circuit = c.engine.circuit;
      ports = c.ports.list;
      rounds = c.engine.rounds;
    } };

    ghost invariant = { λ c. (c.engine.rounds ≤ 2 ^ 63) × AreTold c.ports.list
        × (c.engine.circuit.ports ≡ length c.ports.list)
        × HasPorts (map port_state_of c.engine.circuit.primitives) c.ports.list };
}

/// The place of the first port of a name.
fn place_of(ports: &[Port], name: &[u8]) -> Option<usize>
    ensures { result ≡ position_from (λ (p : APort). bytes_eq name.now p.name) 0 ports.now }
{
    ports.iter().position(|port| name == port.name.as_slice())
}

/// The number of the port of a name, if there is one.
#[tactic(auto, using(crate::proofs::Named::number_is))]
fn number_of(ports: &[Port], name: &[u8]) -> Option<usize>
    ensures { result ≡ port_number ports.now name.now }
{
    place_of(ports, name)
}

impl Connector {
    /// Its ports, in the order of their numbers, each with its name, its way and its type.
    pub fn ports(&self) -> &Ports
        ensures { result.now.list ≡ self.now.ports }
    {
        &self.ports
    }

    /// The number of the port of a name, if there is one. No two ports have one name.
    pub fn port(&self, name: &[u8]) -> Option<usize>
        ensures { result ≡ port_number self.now.ports name.now }
    {
        number_of(self.ports.list.as_slice(), name)
    }

    /// How many rounds were made.
    pub fn rounds(&self) -> u64
        ensures { result ≡ self.now.rounds }
    {
        self.engine.rounds()
    }

    /// What holds of each connector: its ports have names, no two alike, and types that a program
    /// may have; its circuit has as many ports, each with its way, and one where items go in
    /// accepts exactly the items of its type.
    pub fn known(&self)
        ensures told { AreTold self.now.ports }
        ensures count { self.now.circuit.ports ≡ length self.now.ports }
        ensures few { self.now.rounds ≤ 2 ^ 63 }
        ensures ports { HasPorts (states_of self.now) self.now.ports }
    {
        let _ = &self.ports;
    }

    /// Lets it go, and gives its memory back. How its parts go is proved with this call, and not
    /// again in a crate that lets connectors go by it.
    pub fn close(self) {
        drop(self);
    }
}
