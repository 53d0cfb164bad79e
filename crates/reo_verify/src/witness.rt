//! What sees the rounds of a replay.
ghost use Rattle.std.specs.Prelude.{◌≡◌, ◌+◌, ◌++◌, [], ◌∷◌, List as AList, OnOk, length};
ghost use Rattle.reo_net_base.specs.Net.{net_of};
ghost use Rattle.reo_trace.specs.declared.line.RoundLine.{RoundLine as ALine};
ghost use Rattle.reo_rounds.specs.Rules.{rules_of};
ghost use Rattle.reo_runs.specs.Run.{Place};
ghost use Rattle.reo_verify.specs.judging.Judged.{IsPlanShown};
ghost use Rattle.reo_verify.specs.Seeing.{StandsBehind};

use reo_net_base::Ported;
use reo_net_circuit::Circuit;
use reo_rounds::Plan;
use reo_trace::RoundLine;
use reo_values::NoMemory;
use std::alloc::Global;

/// What sees each round of a replay, after its line is judged and before the circuit steps.
pub trait Witness<P: Ported>: Drop {
    /// What it has come to, from what it was first, by the rounds that lines show from a start.
    ghost seen: { Self → Place P → AList ALine → Self → Type 0 };

    /// Sees the round that a line shows by a plan. `NoMemory` is out of memory.
    fn see(
        &mut self,
        alloc: Global,
        circuit: &Circuit<P>,
        line: &RoundLine,
        plan: &Plan,
    ) -> Result<(), NoMemory>
        requires { IsPlanShown (net_of P.behaviour circuit.now) circuit.now.ports
            line.now plan.now }
        ensures { let r = rules_of P.behaviour P.settled P.port_state P.placed P.withdrawn in
            (first : Self) (start : Place P) (lines : AList ALine)
            → StandsBehind r start lines circuit.now → line.now.round ≡ length lines + 1
            → seen first start lines self.old
            → OnOk result (seen first start (lines ++ line.now ∷ []) self.new) };
}

/// A witness that looks at nothing.
#[derive(Drop)]
pub struct Blind;

impl<P: Ported> Witness<P> for Blind {
    ghost seen = { λ first start lines now. Unit {0} };

    fn see(
        &mut self,
        alloc: Global,
        circuit: &Circuit<P>,
        line: &RoundLine,
        plan: &Plan,
    ) -> Result<(), NoMemory> {
        let _ = alloc;
        let _ = circuit;
        let _ = line;
        let _ = plan;
        Ok(())
    }
}
