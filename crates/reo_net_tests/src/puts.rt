//! A channel that is put in the place of another.
ghost use Rattle.std.specs.Prelude.{◌<◌, ◌≡◌, true, length};
ghost use Rattle.reo_net_base.specs.Lawful.{SameShape};
ghost use Rattle.reo_net_base.specs.Net.{net_of, behaviour_at};
ghost use Rattle.reo_kinds.specs.declared.kind.Kind.TheVariants as kinds;
ghost use Rattle.reo_kinds.specs.Kinds.{behaviour_of};

use crate::circuits::Look::Loosened;
use crate::circuits::{Case, all_are_right};
use crate::firsts::has_first;
use crate::shapes::BETWEEN;
use reo_kinds::Kind;
use reo_net_circuit::Circuit;
use std::alloc::Global;
use std::process::Abort;

/// Whether a synchronous channel stands there.
fn is_sync(circuit: &Circuit<Kind>, index: usize) -> bool
    ensures there { result ≡ true → index < length circuit.now.primitives }
    ensures shape { result ≡ true
        → SameShape (behaviour_at (net_of behaviour_of circuit.now).primitives index)
        (behaviour_of kinds.Lossy) }
{
    if index < circuit.primitives().len() {
        matches!(circuit.primitive(index), Kind::Sync)
    } else {
        false
    }
}

/// Puts a lossy channel where a synchronous one stands, and answers whether that is what came out.
fn loosen(circuit: &mut Circuit<Kind>, index: usize) -> bool {
    if is_sync(circuit, index) {
        let old = circuit.put(index, Kind::Lossy);
        let right = matches!(&old, Kind::Sync);
        drop(old);
        right
    } else {
        false
    }
}

/// Rows of the writer, the taker and the channel, before and after: F R J or G J for a port, FF RG
/// GR JJ for the synchronous channel, FF FR RG JJ for the lossy one.
const CASES: &[Case] = &[
    (
        "both offer",
        "w3 t+ sync",
        BETWEEN,
        Loosened(" 0 0 0", " 0 0 0"),
    ),
    (
        "an item is offered",
        "w3 t sync",
        BETWEEN,
        Loosened(" 1 0 2", " 0 0 1"),
    ),
    (
        "an item can be taken",
        "w t+ sync",
        BETWEEN,
        Loosened(" 0 1 1", " 0 1 2"),
    ),
    (
        "neither offers",
        "w t sync",
        BETWEEN,
        Loosened(" 0 0 1", " 0 0 2"),
    ),
];

/// Whether a channel is put in place once, and at no port, and the ports keep their offers.
pub fn is_loosened(
    rt: &impl Abort,
    alloc: Global,
    circuit: &mut Circuit<Kind>,
    before: &str,
    after: &str,
) -> bool {
    has_first(rt, alloc, circuit, 1, before)
        && !loosen(circuit, 1)
        && loosen(circuit, 2)
        && has_first(rt, alloc, circuit, 1, after)
        && !loosen(circuit, 2)
}

#[test]
fn a_lossy_channel_is_put_in_place_of_another(rt: HostRuntime) {
    all_are_right(&rt, rt.alloc(), CASES);
}
