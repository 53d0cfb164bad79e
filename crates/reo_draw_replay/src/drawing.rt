//! The picture of one of the rounds of a replay.
ghost use Rattle.std.specs.Prelude.{◌≡◌, ◌+◌, ◌++◌, [], ◌∷◌, List, OnOk, Some, cond, length};
ghost use Rattle.reo_net_base.specs.Colouring.{AreRows};
ghost use Rattle.reo_net_base.specs.Net.{all_sides, net_of};
ghost use Rattle.reo_kinds.specs.declared.kind.Kind.{Kind as AKind};
ghost use Rattle.reo_kinds.specs.Kinds.{behaviour_of};
ghost use Rattle.reo_trace.specs.declared.line.RoundLine.{RoundLine as ALine};
ghost use Rattle.reo_runs.specs.Run.{Place};
ghost use Rattle.reo_runs.specs.at_ports.Kinds.{kind_rules};
ghost use Rattle.reo_verify.specs.Seeing.{StandsBehind};
ghost use Rattle.reo_verify.specs.judging.Judged.{IsPlanShown};
ghost use Rattle.reo_draw_rounds.specs.Rounds.{round_picture};
ghost use Rattle.reo_draw_replay.specs.declared.drawing.Pictured.{Pictured as ADrawing};
ghost use Rattle.reo_draw_replay.specs.Steps.{HasDrawn};

use reo_draw_rounds::round_picture;
use reo_kinds::Kind;
use reo_net_base::{Colouring, Ports};
use reo_net_circuit::Circuit;
use reo_rounds::Plan;
use reo_trace::RoundLine;
use reo_values::{Bytes, NoMemory};
use reo_verify::Witness;
use std::alloc::Global;

/// The picture of the round of a number, once that round was seen.
#[derive(Drop)]
pub(crate) struct Pictured<'a> {
    pub ports: &'a Ports,
    pub nodes: &'a [Bytes],
    pub homes: &'a [u32],
    pub number: u64,
    pub picture: Option<Bytes>,
}

/// Draws the round that a line shows in this colouring, where that is asked for. `NoMemory` is out
/// of memory.
fn draw_if(
    alloc: Global,
    asked: bool,
    circuit: &Circuit<Kind>,
    ports: &Ports,
    nodes: &[Bytes],
    homes: &[u32],
    line: &RoundLine,
    colouring: &Colouring,
    picture: &mut Option<Bytes>,
) -> Result<(), NoMemory>
    requires { AreRows (all_sides (net_of behaviour_of circuit.now).primitives)
        colouring.now.rows }
    ensures { OnOk result (picture.new ≡ cond asked (Some (round_picture circuit.now
        ports.now.list homes.now nodes.now line.now colouring.now)) picture.old) }
{
    if asked {
        let ports = ports.list.as_slice();
        let drawn = round_picture(alloc, circuit, ports, homes, nodes, line, colouring)?;
        *picture = Some(drawn);
    }
    Ok(())
}

/// Sees the round that a line shows by a plan, and draws it where it is the one that is asked for.
/// `NoMemory` is out of memory.
fn see_round(
    alloc: Global,
    drawing: &mut Pictured,
    circuit: &Circuit<Kind>,
    line: &RoundLine,
    plan: &Plan,
) -> Result<(), NoMemory>
    requires { IsPlanShown (net_of behaviour_of circuit.now) circuit.now.ports line.now plan.now }
    ensures { (first : ADrawing) (start : Place AKind) (lines : List ALine)
        → StandsBehind kind_rules start lines circuit.now → line.now.round ≡ length lines + 1
        → HasDrawn first start lines drawing.old
        → OnOk result (HasDrawn first start (lines ++ line.now ∷ []) drawing.new) }
{
    let asked = line.round == drawing.number;
    draw_if(
        alloc,
        asked,
        circuit,
        drawing.ports,
        drawing.nodes,
        drawing.homes,
        line,
        &plan.colouring,
        &mut drawing.picture,
    )?;
    Ok(())
}

impl<'a> Witness<Kind> for Pictured<'a> {
    ghost seen = { HasDrawn };

    fn see(
        &mut self,
        alloc: Global,
        circuit: &Circuit<Kind>,
        line: &RoundLine,
        plan: &Plan,
    ) -> Result<(), NoMemory> {
        see_round(alloc, self, circuit, line, plan)
    }
}
