//! What is done with an engine, step by step.
ghost use Rattle.std.specs.Prelude.{◌≡◌, ◌<◌};

use crate::changes::{Change, change_all};
use crate::circuits::engine_of;
use crate::offers::{is_answered, is_item, is_pending};
use reo_checker::{Wrong, check};
use reo_engine::{Done, Engine, OfferFault, Plan};
use reo_kinds::Kind;
use reo_net_base::Move;
use reo_runner::release_engine;
use reo_steps::Steps;
use std::alloc::Global;
use std::marker::Brand;
use std::sync::ledger::{Blank, Ledger};

/// What flows, each the port and the number; whether no end flows; and how many sides jam.
pub type Shown = (&'static [(usize, i64)], bool, usize);

/// What is done, and what comes of it.
#[derive(Clone, Copy)]
pub enum Act {
    /// A write of this number at a port, or a take: it is taken, or declined for this cause.
    Offer(usize, Option<i64>, Option<OfferFault>),
    /// Whether an offer was there to be taken back.
    Withdraw(usize, bool),
    /// Whether an offer is pending at a port.
    Pending(usize, bool),
    /// A plan with these rows, which shows this. It is kept in place of the one before.
    Plan(&'static [u32], Shown),
    /// Whether the plan that is kept suits.
    Suits(bool),
    /// Whether a plan that is so changed suits.
    Changed(&'static [Change], bool),
    /// What is wrong first with the colouring of a plan that is so changed.
    Judged(&'static [Change], Option<Wrong>),
    /// A plan that is so changed suits and is made. It shows this, and so many rounds were made.
    Round(&'static [Change], Shown, u64),
}

/// An engine, and the plan that is kept.
struct Play {
    engine: Engine<Kind>,
    kept: Option<Plan>,
}

/// Whether these move.
fn are_moves(moves: &[Move], want: &[(usize, i64)]) -> bool {
    if moves.len() != want.len() {
        return false;
    }
    for index in 0..moves.len() {
        let (port, number) = want[index];
        if moves[index].port != port || !is_item(&moves[index].item, number) {
            return false;
        }
    }
    true
}

/// Whether a plan shows this.
fn shows(plan: &Plan, shown: &Shown) -> bool {
    let (moves, idle, jammed) = *shown;
    are_moves(plan.moves.as_slice(), moves) && plan.idle == idle && plan.jammed == jammed
}

/// Whether a round that was made shows this.
fn has_done(done: &Done, shown: &Shown) -> bool {
    let (moves, idle, jammed) = *shown;
    are_moves(done.moves.as_slice(), moves) && done.idle == idle && done.jammed == jammed
}

/// A plan that is so changed.
fn planned<L: Ledger>(
    alloc: Global,
    engine: &Engine<Kind>,
    steps: &mut Steps<L>,
    changes: &[Change],
) -> Option<Plan> {
    match engine.plan(alloc, 100_000, steps) {
        Ok(plan) => {
            let mut plan = plan;
            change_all(&mut plan, changes);
            Some(plan)
        }
        Err(_) => None,
    }
}

/// Keeps a plan, and answers whether it has these rows and shows this.
fn keeps(play: &mut Play, plan: Option<Plan>, rows: &[u32], shown: &Shown) -> bool {
    let right = match &plan {
        Some(plan) => plan.colouring.rows.as_slice() == rows && shows(plan, shown),
        None => false,
    };
    play.kept = plan;
    right
}

/// Whether there is a plan and it suits, or not.
fn suits(engine: &Engine<Kind>, plan: &Option<Plan>, answer: bool) -> bool {
    match plan {
        Some(plan) => engine.suits(plan) == answer,
        None => false,
    }
}

/// Whether there is a plan, and this is wrong first with its colouring, or nothing is.
fn is_judged(engine: &Engine<Kind>, plan: &Option<Plan>, wrong: Option<Wrong>) -> bool {
    match plan {
        Some(plan) => check(engine.circuit(), &plan.colouring).err() == wrong,
        None => false,
    }
}

/// What was done in a round, where the plan suits.
fn made(engine: &mut Engine<Kind>, plan: Option<Plan>) -> Option<Done> {
    match plan {
        Some(plan) => {
            if engine.suits(&plan) && engine.rounds() < 1000 {
                Some(engine.commit(plan))
            } else {
                None
            }
        }
        None => None,
    }
}

/// Whether a round was made that shows this.
fn is_made(engine: &mut Engine<Kind>, plan: Option<Plan>, shown: &Shown) -> bool {
    match made(engine, plan) {
        Some(done) => has_done(&done, shown),
        None => false,
    }
}

/// Does one act, and answers whether all is as it tells.
fn is_right<L: Ledger>(alloc: Global, play: &mut Play, steps: &mut Steps<L>, act: &Act) -> bool {
    match *act {
        Act::Offer(port, number, cause) => is_answered(&mut play.engine, port, number, cause),
        Act::Withdraw(port, answer) => play.engine.withdraw(port) == answer,
        Act::Pending(port, answer) => is_pending(&play.engine, port) == answer,
        Act::Plan(rows, shown) => {
            let plan = planned(alloc, &play.engine, steps, &[]);
            keeps(play, plan, rows, &shown)
        }
        Act::Suits(answer) => suits(&play.engine, &play.kept, answer),
        Act::Changed(changes, answer) => {
            let plan = planned(alloc, &play.engine, steps, changes);
            suits(&play.engine, &plan, answer)
        }
        Act::Judged(changes, wrong) => {
            let plan = planned(alloc, &play.engine, steps, changes);
            is_judged(&play.engine, &plan, wrong)
        }
        Act::Round(changes, shown, rounds) => {
            let plan = planned(alloc, &play.engine, steps, changes);
            is_made(&mut play.engine, plan, &shown) && play.engine.rounds() == rounds
        }
    }
}

/// Does all acts, and answers whether all is as they tell.
fn are_right<L: Ledger>(
    alloc: Global,
    play: &mut Play,
    steps: &mut Steps<L>,
    acts: &[Act],
) -> bool {
    for act in acts {
        if !is_right(alloc, play, steps, act) {
            return false;
        }
    }
    true
}

/// Whether all is as acts tell on the engine of a text, whose steps are counted in a book.
fn plays<L: Ledger>(alloc: Global, text: &[u8], acts: &[Act], blank: Blank) -> bool
    requires name { blank.name ≡ L.name }
    requires parts { blank.parts ≡ L.parts }
    requires some_part { 0 < L.parts }
{
    let mut steps = Steps::<L>::new(blank);
    match engine_of(alloc, text) {
        Some(engine) => {
            let mut play = Play { engine, kept: None };
            let right = play.engine.rounds() == 0 && are_right(alloc, &mut play, &mut steps, acts);
            let Play { engine, kept } = play;
            release_engine(engine);
            drop(kept);
            right
        }
        None => false,
    }
}

/// Whether all is as acts tell on the engine of a text.
pub fn are_played(alloc: Global, text: &[u8], acts: &[Act]) -> bool {
    plays::<Brand>(alloc, text, acts, Blank::new(1))
}
