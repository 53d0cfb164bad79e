//! The item lists of a circuit.
ghost use Rattle.std.specs.Prelude.{◌≡◌, ◌<◌, [], IfOk, MatchOption, replicate};
ghost use Rattle.reo_net_base.specs.Net.{net_of};
ghost use Rattle.reo_net_circuit.specs.found_ends.Ends.{AreEnds};
ghost use Rattle.reo_refute_base.specs.Items.{AreItemLists};
ghost use Rattle.reo_refute_parts.specs.lists.Visits.{AreGood};
ghost use Rattle.reo_refute_base.specs.Wide.{IsWide};
ghost use Rattle.reo_refute_parts.specs.lists.Passes.{Passes};

use crate::lists::visits::{Brought, visit};
use reo_net_base::Primitive;
use reo_net_circuit::{Circuit, Ends};
use reo_values::{List, NoMemory, Value};
use std::alloc::Global;

/// So many empty lists.
fn no_items(alloc: Global, count: usize) -> Result<Vec<List<Value>>, NoMemory>
    ensures { IfOk result (λ lists. lists.items ≡ replicate count []) }
{
    let mut lists = List::new(alloc);
    for index in 0..count {
        let _ = index;
        lists.push(List::new(alloc))?;
    }
    Ok(lists.into_vec())
}

/// Goes over the joints once.
fn pass<P: Primitive>(
    alloc: Global,
    circuit: &Circuit<P>,
    ends: &Ends,
    lists: &mut Vec<List<Value>>,
) -> Result<Brought, NoMemory>
    requires ends { AreEnds (net_of P.behaviour circuit.now) ends.now }
    requires lists { AreGood (net_of P.behaviour circuit.now) lists.old.items }
    ensures { let net = net_of P.behaviour circuit.now in
        IfOk result (Passes net lists.old.items lists.new.items) }
{
    let mut found = Brought::Nothing;
    for joint in 0..circuit.joint_count() {
        match visit(alloc, circuit, ends, joint, lists)? {
            Brought::Many => return Ok(Brought::Many),
            Brought::Items => found = Brought::Items,
            Brought::Nothing => {}
        }
    }
    Ok(found)
}

/// The item lists of a circuit, or `None` exactly where at some joint more than 256 items can
/// stand. `NoMemory` is out of memory.
pub fn item_lists<P: Primitive>(
    alloc: Global,
    circuit: &Circuit<P>,
    ends: &Ends,
) -> Result<Option<List<List<Value>>>, NoMemory>
    requires { AreEnds (net_of P.behaviour circuit.now) ends.now }
    ensures { let net = net_of P.behaviour circuit.now in
        IfOk result (λ found. MatchOption found (IsWide net)
        (λ lists. AreItemLists net lists × (IsWide net → ⊥))) }
{
    circuit.known();
    let mut lists = no_items(alloc, circuit.joint_count())?;
    'passes: loop {
        match pass(alloc, circuit, ends, &mut lists)? {
            Brought::Many => return Ok(None),
            Brought::Nothing => return Ok(Some(List::from_vec(lists))),
            Brought::Items => {}
        }
    }
}
