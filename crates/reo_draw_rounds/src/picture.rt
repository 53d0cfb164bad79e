//! The picture of a circuit in a round.
ghost use Rattle.std.specs.Prelude.{◌≡◌, IfOk};
ghost use Rattle.reo_net_base.specs.Colouring.{AreRows};
ghost use Rattle.reo_net_base.specs.Net.{all_sides, net_of};
ghost use Rattle.reo_kinds.specs.Kinds.{behaviour_of};
ghost use Rattle.reo_draw_rounds.specs.Rounds.{title_text, scene_of, round_picture};

use crate::losses::losses_of;
use crate::marks::marks_of;
use reo_drawing::{Scene, picture_text};
use reo_kinds::Kind;
use reo_net_base::{Colouring, Port};
use reo_net_circuit::Circuit;
use reo_trace::RoundLine;
use reo_values::{Bytes, NoMemory};
use std::alloc::Global;

/// What stands above the picture of the round of a number. `NoMemory` is out of memory.
fn title_text(alloc: Global, round: u64) -> Result<Bytes, NoMemory>
    ensures { IfOk result (λ title. title ≡ title_text round) }
{
    let Ok(number) = round.to_string(alloc) else {
        return Err(NoMemory);
    };
    let mut title = Bytes::from_slice(alloc, b"round ")?;
    title.append(number.as_bytes())?;
    Ok(title)
}

/// What is shown of a round. `NoMemory` is out of memory.
fn scene_of(
    alloc: Global,
    circuit: &Circuit<Kind>,
    line: &RoundLine,
    rows: &[u32],
) -> Result<Scene, NoMemory>
    requires { AreRows (all_sides (net_of behaviour_of circuit.now).primitives) rows.now }
    ensures { IfOk result (λ scene. scene ≡ scene_of circuit.now line.now rows.now) }
{
    let title = title_text(alloc, line.round)?;
    let marks = marks_of(alloc, circuit, rows)?;
    let lost = losses_of(alloc, circuit.primitives(), line.entries.as_slice())?;
    Ok(Scene { title, marks, lost })
}

/// The picture of a circuit in the round that a line shows and that this colouring is: the circuit
/// as it is before the round, with the marks of its joints, the items that flow, and what is lost.
/// `NoMemory` is out of memory.
pub fn round_picture(
    alloc: Global,
    circuit: &Circuit<Kind>,
    ports: &[Port],
    homes: &[u32],
    names: &[Bytes],
    line: &RoundLine,
    colouring: &Colouring,
) -> Result<Bytes, NoMemory>
    requires { AreRows (all_sides (net_of behaviour_of circuit.now).primitives)
        colouring.now.rows }
    ensures { IfOk result (λ text. text ≡ round_picture circuit.now ports.now homes.now names.now
        line.now colouring.now) }
{
    let rows = colouring.rows.as_slice();
    let items = colouring.items.as_slice();
    let scene = scene_of(alloc, circuit, line, rows)?;
    let kinds = circuit.primitives();
    let joints = circuit.joints();
    picture_text(alloc, kinds, joints, ports, homes, names, &scene, items)
}
