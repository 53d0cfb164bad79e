//! Engines.
ghost use Rattle.std.specs.Prelude.{◌≡◌, ◌≤◌, ◌^◌, true, IfOk, map, length, replicate};
ghost use Rattle.reo_net_laws.specs.Knots.{AreKnots};
ghost use Rattle.reo_rounds.specs.Offering.{AreJustPorts};
ghost use Rattle.reo_engine.specs.Engine.{net_now};

use crate::beginning::begin;
use crate::flows::Flows;
use crate::goers::Goers;
use reo_flags::Flags;
use reo_knots::{Knots, find_knots};
use reo_net_base::Ported;
use reo_net_circuit::{Circuit, Ends};
use reo_settling::{Kept, Lookups};
use reo_values::NoMemory;
use std::alloc::Global;
use std::marker::Model;

/// A circuit with what is offered at its ports, and the number of rounds that were made.
///
/// It keeps as well which primitives may have changed since the last round began: those at which
/// something flowed in it, and the ports at which an offer came or went since. All others stand as
/// they stood.
///
/// And it keeps the rows of parts that were looked at, as long as nothing in them changes:
/// such a part is settled, and is not looked at again. A knot of the circuit is a part. The rows of
/// a part are remembered as well by its state, and, where some row does not let each item in, by
/// the items that the state gives; they serve again in each round in which it comes back to these.
/// The tables of the search are kept too: what they have of a part is made anew only where it is
/// searched.
#[derive(Drop)]
pub struct Engine<P: Ported> {
    pub(crate) circuit: Circuit<P>,
    pub(crate) rounds: u64,
    pub(crate) changed: Flags,
    pub(crate) knots: Knots,
    pub(crate) ends: Ends,
    pub(crate) kept: Kept,
    pub(crate) lookups: Lookups,
    pub(crate) flows: Flows,
    pub(crate) goers: Goers,
}

impl<P: Ported> Model for Engine<P> {
    ghost use Rattle.std.specs.Prelude.{◌≡◌, ◌≤◌, ◌^◌, length, map};
    ghost use Rattle.reo_net_base.specs.Net.{net_of};
    ghost use Rattle.reo_rounds.specs.Offering.{AreJustPorts};
    ghost use Rattle.reo_settling.specs.Lookups.{AreLookups};
    ghost use Rattle.reo_engine.specs.Engine.{Running, IsLookedUp};
    ghost use Rattle.reo_engine.specs.Flows.{AreFlows};
    ghost use Rattle.reo_engine.specs.Goers.{AreGoers};

    ghost Value = { Running P };

    ghost view = { λ e. record {
      circuit = e.circuit;
      rounds = e.rounds;
      changed = e.changed;
      knots = e.knots;
      ends = e.ends;
      kept = e.kept;
    } };

    ghost invariant = { λ e. (e.rounds ≤ 2 ^ 63)
        × (length e.changed ≡ length e.circuit.primitives)
        × AreJustPorts (map P.port_state e.circuit.primitives) e.circuit.ports
        × IsLookedUp (net_of P.behaviour e.circuit) e.rounds e.knots e.ends e.kept
        × AreLookups (net_of P.behaviour e.circuit) e.knots e.kept e.lookups
        × AreFlows (net_of P.behaviour e.circuit) e.knots e.kept e.flows
        × AreGoers P.behaviour P.lasting e.circuit.primitives e.goers };
}

impl<P: Ported> Engine<P> {
    /// An engine that has made no round. Of the circuit's primitives exactly its ports have a way.
    /// `NoMemory` is out of memory.
    pub fn new(alloc: Global, circuit: Circuit<P>) -> Result<Engine<P>, NoMemory>
        requires { AreJustPorts (map P.port_state circuit.primitives) circuit.ports }
        ensures circuit { IfOk result (λ made. made.circuit ≡ circuit) }
        ensures rounds { IfOk result (λ made. made.rounds ≡ 0) }
        ensures changed { let all = replicate (length circuit.primitives) true in
            IfOk result (λ made. made.changed ≡ all) }
    {
        let knots = find_knots(alloc, &circuit)?;
        let begun = begin(alloc, &circuit, &knots)?;
        Ok(Engine {
            circuit,
            rounds: 0,
            changed: begun.changed,
            knots,
            ends: begun.ends,
            kept: begun.kept,
            lookups: begun.lookups,
            flows: begun.flows,
            goers: begun.goers,
        })
    }

    /// The circuit, with the offers that are pending.
    pub fn circuit(&self) -> &Circuit<P>
        ensures { result.now ≡ self.now.circuit }
    {
        &self.circuit
    }

    /// How many rounds were made.
    pub fn rounds(&self) -> u64
        ensures { result ≡ self.now.rounds }
    {
        self.rounds
    }

    /// What holds of each engine: exactly its ports have a way, and its knots are those of its
    /// circuit.
    pub fn known(&self)
        ensures ports { let states = map P.port_state self.now.circuit.primitives in
            AreJustPorts states self.now.circuit.ports }
        ensures few { self.now.rounds ≤ 2 ^ 63 }
        ensures one_each { length self.now.changed ≡ length self.now.circuit.primitives }
        ensures knots { AreKnots (net_now P.behaviour self.now) self.now.knots }
    {
        let _ = &self.rounds;
    }
}
