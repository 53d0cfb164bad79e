//! The joints of a node.
ghost use Rattle.std.specs.Prelude.{◌≡◌, ◌<◌, ◌+◌, ◌^◌, ◌++◌, [], cond, length, option_to_list, OnOk};
ghost use Rattle.reo_flat.specs.Joints.{is_many, end_range, pairs, givers, takers, joints_of};

use crate::branches::many;
use reo_net_base::{End, Joint};
use reo_values::{List, NoMemory};

/// The joints into a merger, where there is one.
fn into_merger(ins: &[End], merger: usize, joints: &mut List<Joint>) -> Result<(), NoMemory>
    ensures { OnOk result (joints.new ≡ joints.old ++ cond (is_many ins.now) (pairs ins.now
        (end_range merger 0 (length ins.now))) []) }
{
    if ins.len() < 2 {
        return Ok(());
    }
    for (end, giver) in ins.iter().enumerate() {
        let taker = End {
            primitive: merger,
            end,
        };
        joints.push(Joint {
            giver: *giver,
            taker,
        })?;
    }
    Ok(())
}

/// The joints out of a replicator, where there is one.
fn out_of_replicator(
    outs: &[End],
    replicator: usize,
    joints: &mut List<Joint>,
) -> Result<(), NoMemory>
    ensures { OnOk result (joints.new ≡ joints.old ++ cond (is_many outs.now) (pairs
        (end_range replicator 1 (length outs.now)) outs.now) []) }
{
    if outs.len() < 2 {
        return Ok(());
    }
    for (end, taker) in outs.iter().enumerate() {
        let giver = End {
            primitive: replicator,
            end: end + 1,
        };
        joints.push(Joint {
            giver,
            taker: *taker,
        })?;
    }
    Ok(())
}

/// The end behind which no merger stands: its output, or the one incoming end.
fn giver(ins: &[End], merger: usize) -> Option<End>
    ensures { option_to_list result ≡ givers ins.now merger }
{
    if 2 <= ins.len() {
        Some(End {
            primitive: merger,
            end: ins.len(),
        })
    } else {
        ins.first().copied()
    }
}

/// The end before which no replicator stands: its input, or the one outgoing end.
fn taker(outs: &[End], replicator: usize) -> Option<End>
    ensures { option_to_list result ≡ takers outs.now replicator }
{
    if 2 <= outs.len() {
        Some(End {
            primitive: replicator,
            end: 0,
        })
    } else {
        outs.first().copied()
    }
}

/// The joint between these ends, if there are both.
fn between(giver: Option<End>, taker: Option<End>, joints: &mut List<Joint>) -> Result<(), NoMemory>
    ensures { OnOk result (joints.new ≡ joints.old ++ pairs (option_to_list giver)
        (option_to_list taker)) }
{
    match (giver, taker) {
        (Some(giver), Some(taker)) => {
            joints.push(Joint { giver, taker })?;
            Ok(())
        }
        (Some(_), None) => Ok(()),
        (None, _) => Ok(()),
    }
}

/// The joints of a node with these ends, whose own primitives begin at a number, at the end: into
/// its merger, on to its replicator, and out of that.
pub fn joints_of(
    ins: &[End],
    outs: &[End],
    at: usize,
    joints: &mut List<Joint>,
) -> Result<(), NoMemory>
    requires { at + 1 < 2 ^ 64 }
    ensures { OnOk result (joints.new ≡ joints.old ++ joints_of ins.now outs.now at) }
{
    let replicator = at + many(ins);
    into_merger(ins, at, joints)?;
    between(giver(ins, at), taker(outs, replicator), joints)?;
    out_of_replicator(outs, replicator, joints)?;
    Ok(())
}
