//! Flat circuits that are talked to.
ghost use Rattle.std.specs.Prelude.{◌≡◌, ◌<◌, ◌^◌, map, All, IfOk};
ghost use Rattle.reo_kinds.specs.Kinds.{port_state_of};
ghost use Rattle.reo_rules.specs.literals.Items.{HasFewNames};
ghost use Rattle.reo_net_base.specs.declared.port.Port.{Port as APort};
ghost use Rattle.reo_rounds.specs.Offering.{AreJustPorts};
ghost use Rattle.reo_live.specs.base.Live.{beginning};

use crate::talk::live::Live;
use reo_flatten::Flat;
use reo_kinds::Kind;
use reo_values::NoMemory;
use std::alloc::Global;

impl Live<Kind> {
    /// A flat circuit that has heard nothing, with this budget. It is not spent. `NoMemory` is out
    /// of memory.
    pub fn new(alloc: Global, flat: Flat, budget: u64) -> Result<Live<Kind>, NoMemory>
        requires small { budget < 10 ^ 18 }
        requires just { let states = map port_state_of flat.circuit.primitives in
            AreJustPorts states flat.circuit.ports }
        requires names { All (λ (p : APort). HasFewNames p.kindred) flat.ports.list }
        ensures live { IfOk result (λ made. made.live ≡ beginning flat.circuit) }
        ensures ports { IfOk result (λ made. made.ports ≡ flat.ports.list) }
        ensures budget { IfOk result (λ made. made.budget ≡ budget) }
    {
        let Flat {
            circuit,
            ports,
            nodes: _,
            homes: _,
        } = flat;
        Live::over(alloc, circuit, ports, budget)
    }
}
