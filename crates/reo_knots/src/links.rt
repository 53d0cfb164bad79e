//! What joints link.
ghost use Rattle.std.specs.Prelude.{◌≡◌, ◌+◌, ◌<◌, ◌↔◌, IsTrue, IfOk, OnOk, length};
ghost use Rattle.reo_net_base.specs.Net.{net_of};
ghost use Rattle.reo_net_laws.specs.Knots.{IsLoop};
ghost use Rattle.reo_net_laws.specs.KnotLabels.{AreLabels, AreInRange, AreMembers, AreLoops};

use crate::labels::{Labels, apart, join};
use reo_net_base::Primitive;
use reo_net_circuit::Circuit;
use reo_values::{List, NoMemory};
use std::alloc::Global;

/// A label for each side, and whether each joint closes a loop.
#[derive(Drop)]
pub(crate) struct LinkedSides {
    /// The label of each side: two sides have one exactly where they are in one knot.
    pub(crate) labels: Vec<usize>,
    /// Whether each joint is a loop joint.
    pub(crate) loops: Vec<bool>,
}

/// Links the two sides of a joint. Says whether they were linked before.
fn link<P: Primitive>(
    alloc: Global,
    circuit: &Circuit<P>,
    all: &mut Labels,
    index: usize,
) -> Result<bool, NoMemory>
    requires index { index < length circuit.now.joints }
    requires members { AreMembers all.old.labels.items all.old.members.items }
    requires labels { AreLabels (net_of P.behaviour circuit.now) index all.old.labels.items }
    ensures members { OnOk result (AreMembers all.new.labels.items all.new.members.items) }
    ensures labels { let net = net_of P.behaviour circuit.now in
        OnOk result (AreLabels net (index + 1) all.new.labels.items) }
    ensures closes { let net = net_of P.behaviour circuit.now in
        IfOk result (λ closes. IsTrue closes ↔ IsLoop net index) }
{
    circuit.known();
    let joint = circuit.joint(index);
    let giver = circuit.side_of(joint.giver);
    let taker = circuit.side_of(joint.taker);
    join(alloc, all, giver, taker)
}

/// The labels of all sides, and the joints that close loops.
pub(crate) fn find_links<P: Primitive>(
    alloc: Global,
    circuit: &Circuit<P>,
) -> Result<LinkedSides, NoMemory>
    ensures labels { let net = net_of P.behaviour circuit.now in
        IfOk result (λ found. AreLabels net (length net.joints) found.labels.items) }
    ensures in_range { IfOk result (λ found. AreInRange found.labels.items) }
    ensures loops { let net = net_of P.behaviour circuit.now in
        IfOk result (λ found. AreLoops net (length net.joints) found.loops.items) }
{
    let mut all = apart(alloc, circuit.sides())?;
    let mut loops = List::new(alloc);
    for index in 0..circuit.joint_count() {
        let closes = link(alloc, circuit, &mut all, index)?;
        loops.push(closes)?;
    }
    Ok(LinkedSides {
        labels: all.labels,
        loops: loops.into_vec(),
    })
}
