//! What an engine begins with.
ghost use Rattle.std.specs.Prelude.{◌≡◌, true, IfOk, length, replicate};
ghost use Rattle.reo_net_base.specs.Net.{net_of};
ghost use Rattle.reo_net_circuit.specs.found_ends.Ends.{AreEnds};
ghost use Rattle.reo_net_laws.specs.Knots.{AreKnots};
ghost use Rattle.reo_settling.specs.Plannings.{Kept as KeptRows, IsKept};
ghost use Rattle.reo_settling.specs.Lookups.{AreLookups};
ghost use Rattle.reo_engine.specs.Flows.{AreFlows};
ghost use Rattle.reo_engine.specs.Goers.{AreGoers};

use crate::flows::Flows;
use crate::goers::Goers;
use reo_flags::Flags;
use reo_knots::Knots;
use reo_net_base::Primitive;
use reo_net_circuit::{Circuit, Ends, ends_of};
use reo_settling::{Kept, Lookups};
use reo_values::NoMemory;
use std::alloc::Global;

/// What an engine begins with beside its circuit and the circuit's knots.
#[derive(Drop)]
pub(crate) struct EngineStart {
    pub(crate) changed: Flags,
    pub(crate) ends: Ends,
    pub(crate) kept: Kept,
    pub(crate) lookups: Lookups,
    pub(crate) flows: Flows,
    pub(crate) goers: Goers,
}

/// What an engine begins with: all primitives are marked, and nothing is kept. `NoMemory` is out of
/// memory.
pub(crate) fn begin<P: Primitive>(
    alloc: Global,
    circuit: &Circuit<P>,
    knots: &Knots,
) -> Result<EngineStart, NoMemory>
    requires { AreKnots (net_of P.behaviour circuit.now) knots.now }
    ensures changed { let all = replicate (length circuit.now.primitives) true in
        IfOk result (λ made. made.changed ≡ all) }
    ensures ends { IfOk result (λ made. AreEnds (net_of P.behaviour circuit.now) made.ends) }
    ensures kept { let net = net_of P.behaviour circuit.now in
        IfOk result (λ made. IsKept net knots.now 1 made.kept) }
    ensures lookups { let net = net_of P.behaviour circuit.now in
        IfOk result (λ made. (kept : KeptRows) → AreLookups net knots.now kept made.lookups) }
    ensures flows { let net = net_of P.behaviour circuit.now in
        IfOk result (λ made. AreFlows net knots.now made.kept made.flows) }
    ensures goers { let primitives = circuit.now.primitives in
        IfOk result (λ made. AreGoers P.behaviour P.lasting primitives made.goers) }
{
    let changed = Flags::new(alloc, circuit.primitives().len(), true)?;
    let ends = ends_of(alloc, circuit)?;
    let kept = Kept::new(alloc, circuit.sides(), knots.count())?;
    let goers = Goers::new(alloc, circuit)?;
    let flows = Flows::new(alloc, circuit, knots)?;
    let lookups = Lookups::new(alloc, circuit, knots, &ends)?;
    Ok(EngineStart {
        changed,
        ends,
        kept,
        lookups,
        flows,
        goers,
    })
}
