//! Trying values at the first loop joints.
ghost use Rattle.std.specs.Prelude.{◌≡◌, ◌≤◌, ◌+◌, true, false, IfOk, OnOk, MatchOption, length, drop};
ghost use Rattle.reo_net_base.specs.Net.{net_of};
ghost use Rattle.reo_joint_values.specs.Chosen.{IsChosen};
ghost use Rattle.reo_rows.specs.Sets.{family_of};
ghost use Rattle.reo_propagate.specs.Basis.{IsSearchOn};
ghost use Rattle.reo_search.specs.choices.Remaining.{choices_of};
ghost use Rattle.reo_search.specs.choices.Trying.{HasCodes, AreLeftWith, IsOpen, MayRestartOn};
ghost use Rattle.reo_search.specs.choices.Best.{IsBetter};
ghost use Rattle.reo_search.specs.choices.KnotSearch.{IsSearched, IsFront, inside_of, names_in};

use crate::choices::best::{is_before, keep};
use crate::choices::kept::{have_one, kept_of};
use crate::choices::knot_search::KnotSearch;
use reo_net_base::Primitive;
use reo_propagate::{State, propagate, restart};
use reo_steps::Steps;
use reo_values::{List, NoMemory};
use reo_walk::{pin, walk};
use std::sync::ledger::Ledger;

/// Begins anew with these values alone at the first loop joints, and narrows. `NoMemory` is out of
/// memory.
pub(crate) fn narrow_to<P: Primitive>(
    searched: &KnotSearch<'_, P>,
    state: &mut State,
    codes: &[usize],
) -> Result<(), NoMemory>
    requires tables { let net = net_of P.behaviour searched.now.basis.now.circuit.now in
        MayRestartOn net searched.now.basis.now state.old }
    requires searched { let net = net_of P.behaviour searched.now.basis.now.circuit.now in
        IsSearched net searched.now }
    requires codes { length codes.now ≤ length searched.now.loops.now }
    ensures search { let net = net_of P.behaviour searched.now.basis.now.circuit.now in
        OnOk result (IsSearchOn net searched.now.basis.now (inside_of searched.now) state.new) }
    ensures left { let net = net_of P.behaviour searched.now.basis.now.circuit.now in
        OnOk result (AreLeftWith net (names_in searched.now) (inside_of searched.now)
        searched.now.loops.now codes.now state.new.alive) }
{
    let joints = &searched.loops[..codes.len()];
    restart(searched.alloc, searched.basis, searched.sides, state)?;
    pin(searched.basis, searched.sides, state, joints, codes)?;
    propagate(searched.basis, searched.sides, state)?;
    Ok(())
}

/// Walks over what is left, and keeps the numbers of the first assignment there where a walk finds
/// it and it stands before the best so far. `true` where nothing more of what is left is to be
/// looked for: that is so too where nothing of it can stand before the best. It ticks at most once,
/// and where it answers `false` it has only looked. `NoMemory` is out of memory.
pub(crate) fn decides<P: Primitive, L: Ledger>(
    searched: &KnotSearch<'_, P>,
    state: &mut State,
    best: &mut Option<List<usize>>,
    steps: &mut Steps<L>,
) -> Result<bool, NoMemory>
    requires search { let net = net_of P.behaviour searched.now.basis.now.circuit.now in
        IsSearchOn net searched.now.basis.now (inside_of searched.now) state.old }
    requires searched { let net = net_of P.behaviour searched.now.basis.now.circuit.now in
        IsSearched net searched.now }
    ensures better { let net = net_of P.behaviour searched.now.basis.now.circuit.now in
        IfOk result (λ done. done ≡ true → IsBetter (IsChosen net (names_in searched.now)
        (inside_of searched.now) (family_of state.old.alive)) net searched.now.turn
        searched.now.places.now best.old best.new) }
    ensures looked { IfOk result (λ done. done ≡ false
        → (best.new ≡ best.old) × (steps.new ≡ steps.old)) }
    ensures tables { let net = net_of P.behaviour searched.now.basis.now.circuit.now in
        OnOk result (MayRestartOn net searched.now.basis.now state.new) }
    ensures ticks { steps.new ≤ steps.old + 1 }
{
    match walk(
        searched.alloc,
        searched.basis,
        searched.sides,
        state,
        searched.places,
        searched.turn,
    )? {
        None => Ok(false),
        Some(chosen) => {
            if !is_before(&chosen, best) {
                return Ok(true);
            }
            if !have_one(&state.alive, searched.loops) {
                return Ok(false);
            }
            steps.tick();
            keep(best, chosen);
            Ok(true)
        }
    }
}

/// Narrows to these values at the first loop joints, and keeps the numbers of the first assignment
/// with them where that is found at once and stands before the best so far. `None` where nothing
/// more is to be looked for with them, and else what is left at the loop joints; nothing was kept
/// then. `NoMemory` is out of memory.
pub(crate) fn try_front<P: Primitive, L: Ledger>(
    searched: &KnotSearch<'_, P>,
    state: &mut State,
    left: &List<List<usize>>,
    codes: &[usize],
    best: &mut Option<List<usize>>,
    steps: &mut Steps<L>,
) -> Result<Option<List<List<usize>>>, NoMemory>
    requires tables { let net = net_of P.behaviour searched.now.basis.now.circuit.now in
        MayRestartOn net searched.now.basis.now state.old }
    requires searched { let net = net_of P.behaviour searched.now.basis.now.circuit.now in
        IsSearched net searched.now }
    requires front { let net = net_of P.behaviour searched.now.basis.now.circuit.now in
        IsFront net searched.now codes.now left.now }
    ensures found { let net = net_of P.behaviour searched.now.basis.now.circuit.now in
        let names = names_in searched.now in
        let inside = inside_of searched.now in
        IfOk result (λ rest. MatchOption rest
        (IsBetter (HasCodes net names inside searched.now.loops.now codes.now) net
        searched.now.turn searched.now.places.now best.old best.new)
        (λ kept. (best.new ≡ best.old) × (steps.new ≡ steps.old)
        × IsOpen net names inside searched.now.loops.now codes.now left.now kept)) }
    ensures tables { let net = net_of P.behaviour searched.now.basis.now.circuit.now in
        OnOk result (MayRestartOn net searched.now.basis.now state.new) }
    ensures ticks { steps.new ≤ steps.old + choices_of (drop (length codes.now) left.now) }
{
    narrow_to(searched, state, codes)?;
    match kept_of(searched.alloc, &state.alive, searched.loops, left)? {
        None => Ok(None),
        Some(kept) => {
            let done = decides(searched, state, best, steps)?;
            if done { Ok(None) } else { Ok(Some(kept)) }
        }
    }
}
