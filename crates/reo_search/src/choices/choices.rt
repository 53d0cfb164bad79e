//! Going through the choices of values at the loop joints.
ghost use Rattle.std.specs.Prelude.{◌≡◌, ◌≤◌, ◌+◌, IfOk, OnOk, length, drop};
ghost use Rattle.reo_net_base.specs.Net.{net_of};
ghost use Rattle.reo_joint_values.specs.Chosen.{IsChosen};
ghost use Rattle.reo_weights.specs.Weights.{all_values};
ghost use Rattle.reo_propagate.specs.Basis.{IsSearchOn};
ghost use Rattle.reo_search.specs.choices.Remaining.{choices_of};
ghost use Rattle.reo_search.specs.choices.Trying.{HasCodes, IsFirstOf, AreSingles, MayRestartOn};
ghost use Rattle.reo_search.specs.choices.Best.{IsBetter};
ghost use Rattle.reo_search.specs.choices.KnotSearch.{IsSearched, IsLeftIn, IsFront, inside_of, names_in};

use crate::choices::best::keep;
use crate::choices::knot_search::KnotSearch;
use crate::choices::trying::{decides, narrow_to, try_front};
use reo_net_base::Primitive;
use reo_propagate::State;
use reo_steps::Steps;
use reo_values::{List, NoMemory};
use reo_walk::first_by;
use std::sync::ledger::Ledger;

/// Keeps the numbers of the first assignment that has these values at the loop joints, where there
/// is one and it stands before the best so far. It ticks at most once. `NoMemory` is out of memory.
fn try_choice<P: Primitive, L: Ledger>(
    searched: &KnotSearch<'_, P>,
    state: &mut State,
    codes: &[usize],
    best: &mut Option<List<usize>>,
    steps: &mut Steps<L>,
) -> Result<(), NoMemory>
    requires tables { let net = net_of P.behaviour searched.now.basis.now.circuit.now in
        MayRestartOn net searched.now.basis.now state.old }
    requires searched { let net = net_of P.behaviour searched.now.basis.now.circuit.now in
        IsSearched net searched.now }
    requires codes { length codes.now ≡ length searched.now.loops.now }
    ensures better { let net = net_of P.behaviour searched.now.basis.now.circuit.now in
        OnOk result (IsBetter (HasCodes net (names_in searched.now) (inside_of searched.now)
        searched.now.loops.now codes.now) net searched.now.turn searched.now.places.now best.old
        best.new) }
    ensures tables { let net = net_of P.behaviour searched.now.basis.now.circuit.now in
        OnOk result (MayRestartOn net searched.now.basis.now state.new) }
    ensures ticks { steps.new ≤ steps.old + 1 }
{
    narrow_to(searched, state, codes)?;
    steps.tick();
    match first_by(
        searched.alloc,
        searched.basis,
        searched.sides,
        state,
        searched.places,
        searched.turn,
    )? {
        None => {}
        Some(chosen) => keep(best, chosen),
    }
    Ok(())
}

/// Adds the values at the next joints, as long as one alone is left there.
fn push_single(left: &List<List<usize>>, codes: &mut List<usize>) -> Result<(), NoMemory>
    requires { length codes.old ≤ length left.now }
    ensures { OnOk result (AreSingles left.now codes.old codes.new) }
{
    for index in codes.len()..left.len() {
        let values = left.at(index);
        if values.len() != 1 {
            return Ok(());
        }
        codes.push(*values.at(0))?;
    }
    Ok(())
}

/// Keeps the numbers of the first assignment that has these values at the first loop joints, where
/// there is one and it stands before the best so far. At the others the values that are left are
/// gone through: where nothing is left with a value, where nothing can stand before the best with
/// it, and where a walk settles all, the choices behind it are not looked at. It ticks at most once
/// for each choice that there is. `NoMemory` is out of memory.
fn improve<P: Primitive, L: Ledger>(
    searched: &KnotSearch<'_, P>,
    state: &mut State,
    left: &List<List<usize>>,
    codes: &mut List<usize>,
    best: &mut Option<List<usize>>,
    steps: &mut Steps<L>,
) -> Result<(), NoMemory>
    requires tables { let net = net_of P.behaviour searched.now.basis.now.circuit.now in
        MayRestartOn net searched.now.basis.now state.old }
    requires searched { let net = net_of P.behaviour searched.now.basis.now.circuit.now in
        IsSearched net searched.now }
    requires front { let net = net_of P.behaviour searched.now.basis.now.circuit.now in
        IsFront net searched.now codes.old left.now }
    ensures better { let net = net_of P.behaviour searched.now.basis.now.circuit.now in
        OnOk result (IsBetter (HasCodes net (names_in searched.now) (inside_of searched.now)
        searched.now.loops.now codes.old) net searched.now.turn searched.now.places.now best.old
        best.new) }
    ensures codes { OnOk result (codes.new ≡ codes.old) }
    ensures tables { let net = net_of P.behaviour searched.now.basis.now.circuit.now in
        OnOk result (MayRestartOn net searched.now.basis.now state.new) }
    ensures ticks { steps.new ≤ steps.old + choices_of (drop (length codes.old) left.now) }
{
    let held = codes.len();
    push_single(left, codes)?;
    let many = codes.len();
    if many == searched.loops.len() {
        try_choice(searched, state, codes.as_slice(), best, steps)?;
        codes.truncate(held);
        return Ok(());
    }
    let next = left.at(many);
    for index in 0..next.len() {
        codes.push(*next.at(index))?;
        let rest = try_front(searched, state, left, codes.as_slice(), best, steps)?;
        match rest {
            None => {}
            Some(kept) => improve(searched, state, &kept, codes, best, steps)?,
        }
        codes.truncate(many);
    }
    codes.truncate(held);
    Ok(())
}

/// The numbers of the first assignment, or `None` exactly where there is none. It ticks at most
/// once for each choice of what is left at the loop joints. `NoMemory` is out of memory.
pub(crate) fn first_over<P: Primitive, L: Ledger>(
    searched: &KnotSearch<'_, P>,
    state: &mut State,
    left: &List<List<usize>>,
    steps: &mut Steps<L>,
) -> Result<Option<List<usize>>, NoMemory>
    requires search { let net = net_of P.behaviour searched.now.basis.now.circuit.now in
        IsSearchOn net searched.now.basis.now (inside_of searched.now) state.old }
    requires searched { let net = net_of P.behaviour searched.now.basis.now.circuit.now in
        IsSearched net searched.now }
    requires left { let net = net_of P.behaviour searched.now.basis.now.circuit.now in
        IsLeftIn net searched.now state.old.alive left.now }
    requires some { 1 ≤ choices_of left.now }
    ensures first { let net = net_of P.behaviour searched.now.basis.now.circuit.now in
        let names = names_in searched.now in
        IfOk result (IsFirstOf (IsChosen net names (inside_of searched.now) (all_values names))
        net searched.now.turn searched.now.places.now) }
    ensures tables { let net = net_of P.behaviour searched.now.basis.now.circuit.now in
        OnOk result (MayRestartOn net searched.now.basis.now state.new) }
    ensures ticks { steps.new ≤ steps.old + choices_of left.now }
{
    let mut best = None;
    let done = decides(searched, state, &mut best, steps)?;
    if done {
        return Ok(best);
    }
    let mut codes = List::new(searched.alloc);
    improve(searched, state, left, &mut codes, &mut best, steps)?;
    Ok(best)
}
