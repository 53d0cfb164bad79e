//! Why a round is refused.
ghost use Rattle.std.specs.Prelude.{◌≡◌, [], IfOk, OnErr, IsTrue, slice_index, slice_index_or};
ghost use Rattle.reo_runs.specs.verdicts.Wrongs.{node_of};
ghost use Rattle.reo_verify.specs.judging.Refused.{IsRefusalBy, MayWantMemory, names_node};

use crate::judging::judging::Stop;
use reo_checker::Wrong;
use reo_runs::Refusal;
use reo_values::{Bytes, NoMemory};
use std::alloc::Global;

/// The name of the node of a joint. `NoMemory` is out of memory.
fn home_name(alloc: Global, nodes: &[Bytes], homes: &[u32], joint: usize) -> Result<Bytes, NoMemory>
    ensures { IfOk result (λ name.
        name ≡ slice_index_or nodes.now (slice_index homes.now joint) []) }
{
    let home = homes.get(joint).copied().unwrap_or(0);
    match nodes.get(home as usize) {
        Some(name) => name.copy(alloc),
        None => Ok(Bytes::new(alloc)),
    }
}

/// The node that a cause names: that of its joint. `NoMemory` is out of memory.
fn node_of(alloc: Global, nodes: &[Bytes], homes: &[u32], wrong: Wrong) -> Result<Bytes, NoMemory>
    ensures node { IfOk result (λ node. node ≡ node_of nodes.now homes.now wrong) }
    ensures sure { OnErr result (IsTrue (names_node wrong)) }
{
    match wrong {
        Wrong::Count => Ok(Bytes::new(alloc)),
        Wrong::Row { .. } => Ok(Bytes::new(alloc)),
        Wrong::Joint { joint } => home_name(alloc, nodes, homes, joint),
        Wrong::Item { joint } => home_name(alloc, nodes, homes, joint),
    }
}

/// The refusal of the round of a number whose line is not right. `NoMemory` is out of memory.
pub fn refusal_of(
    alloc: Global,
    nodes: &[Bytes],
    homes: &[u32],
    round: u64,
    stop: Stop,
) -> Result<Refusal, NoMemory>
    ensures refusal { IfOk result (IsRefusalBy nodes.now homes.now round stop) }
    ensures sure { OnErr result (MayWantMemory stop) }
{
    match stop {
        Stop::Wrong(wrong) => {
            let node = node_of(alloc, nodes, homes, wrong)?;
            Ok(Refusal::Round { round, wrong, node })
        }
        Stop::Moves => Ok(Refusal::Moves { round }),
        Stop::NoMemory => Err(NoMemory),
    }
}
