//! Visits of joints.
ghost use Rattle.std.specs.Prelude.{◌≡◌, ◌<◌, ◌+◌, ◌≤◌, IfOk, MatchOption, OnOk, length};
ghost use Rattle.reo_net_base.specs.Ends.{IsGiver};
ghost use Rattle.reo_net_base.specs.Net.{net_of, behaviour_at};
ghost use Rattle.reo_net_circuit.specs.found_ends.Ends.{AreEnds};
ghost use Rattle.reo_joint_values.specs.Many.{HasMany};
ghost use Rattle.reo_refute_parts.specs.lists.Visits.{AreGood, IsNew, Comes};

use crate::lists::rows::{Bringing, note_row};
use reo_net_base::{End, Primitive};
use reo_net_circuit::{Circuit, Ends};
use reo_values::{List, NoMemory, Value};
use std::alloc::Global;

/// How many items can stand at a joint that is not wide.
const MOST: usize = 256;

/// How many rows of an end's side are no jam rows.
fn plain_rows<P: Primitive>(circuit: &Circuit<P>, giver: End) -> usize
    requires { IsGiver (net_of P.behaviour circuit.now) giver }
    ensures { let b = behaviour_at (net_of P.behaviour circuit.now).primitives giver.primitive in
        result + 1 ≡ b.rows (b.side_of giver.end) }
{
    circuit.known();
    let primitive = circuit.primitive(giver.primitive);
    primitive.rows(primitive.side_of(giver.end)) - 1
}

/// The items that are new at a joint, or `None` where with them more than 256 items stand there.
fn new_items<P: Primitive>(
    alloc: Global,
    circuit: &Circuit<P>,
    ends: &Ends,
    lists: &[List<Value>],
    joint: usize,
) -> Result<Option<List<Value>>, NoMemory>
    requires ends { AreEnds (net_of P.behaviour circuit.now) ends.now }
    requires lists { AreGood (net_of P.behaviour circuit.now) lists.now }
    requires joint { joint < length circuit.now.joints }
    ensures { let net = net_of P.behaviour circuit.now in
        IfOk result (λ found. MatchOption found (HasMany net joint)
        (IsNew net lists.now joint)) }
{
    circuit.known();
    let giver = circuit.joint(joint).giver;
    let old = lists[joint].as_slice();
    let mut new = List::new(alloc);
    for row in 0..plain_rows(circuit, giver) {
        let giving = Bringing {
            circuit,
            ends,
            lists,
            giver,
            row,
        };
        note_row(alloc, &giving, old, &mut new)?;
        if new.len() > MOST - old.len() {
            return Ok(None);
        }
    }
    Ok(Some(new))
}

/// What a visit or a pass brings.
#[derive(Clone, Copy, Debug, PartialEq, Eq)]
pub(crate) enum Brought {
    /// No item is new.
    Nothing,
    /// Items came at the back.
    Items,
    /// At some joint more than 256 items can stand.
    Many,
}

/// Visits a joint: the items that are new there come at the back of its list.
pub(crate) fn visit<P: Primitive>(
    alloc: Global,
    circuit: &Circuit<P>,
    ends: &Ends,
    joint: usize,
    lists: &mut Vec<List<Value>>,
) -> Result<Brought, NoMemory>
    requires ends { AreEnds (net_of P.behaviour circuit.now) ends.now }
    requires lists { AreGood (net_of P.behaviour circuit.now) lists.old.items }
    requires joint { joint < length circuit.now.joints }
    ensures { let net = net_of P.behaviour circuit.now in
        IfOk result (Comes net joint lists.old.items lists.new.items) }
{
    circuit.known();
    match new_items(alloc, circuit, ends, lists.as_slice(), joint)? {
        None => Ok(Brought::Many),
        Some(new) => {
            let found = if new.is_empty() {
                Brought::Nothing
            } else {
                Brought::Items
            };
            lists[joint].append(new)?;
            Ok(found)
        }
    }
}
