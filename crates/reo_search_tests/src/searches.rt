//! The weight of a knot, and its first assignment over all values.
ghost use Rattle.std.specs.Prelude.{◌≤◌, ◌+◌, ℕ, IsTrue};
ghost use Rattle.reo_net_base.specs.Net.{net_of};
ghost use Rattle.reo_reach.specs.Supplied.{AreShort, IsSupply};
ghost use Rattle.reo_weights.specs.Weights.{IsWeight};
ghost use Rattle.reo_walk.specs.Wanted.{IsWanted, in_wanted};

use crate::looks::is_part;
use crate::widths::none_wide;
use reo_net_base::Primitive;
use reo_search::{Exceeds, Part, Wanted, first, weight};
use reo_steps::Steps;
use std::alloc::Global;
use std::sync::ledger::Ledger;

/// The greatest budget.
pub const MOST: u64 = 999_999_999_999_999_999;

/// What a search answers: a part of all sides with these rows, of which none jams, or a fault.
#[derive(Clone, Copy)]
enum Answer<'a> {
    Rows(&'a [u32]),
    Fault(Exceeds),
}

fn is_answer(answer: &Result<Part, Exceeds>, want: Answer<'_>) -> bool {
    match answer {
        Ok(part) => match want {
            Answer::Rows(rows) => is_part(part, rows, false),
            Answer::Fault(_) => false,
        },
        Err(fault) => match want {
            Answer::Rows(_) => false,
            Answer::Fault(want) => *fault == want,
        },
    }
}

/// Whether a search of a knot answers this. It makes at most as many ticks as the weight of the
/// knot says.
fn answers<P: Primitive, L: Ledger>(
    alloc: Global,
    wanted: &Wanted<'_, P>,
    budget: u64,
    want: Answer<'_>,
    steps: &mut Steps<L>,
) -> bool
    requires wanted { IsWanted (net_of P.behaviour wanted.now.circuit.now) wanted.now }
    requires supply { IsSupply (net_of P.behaviour wanted.now.circuit.now) wanted.now.supply.now }
    requires short { AreShort wanted.now.supply.now }
    ensures { let net = net_of P.behaviour wanted.now.circuit.now in
        (w : ℕ) → IsWeight net (in_wanted wanted.now) w → steps.new ≤ steps.old + w }
{
    let answer = first(alloc, wanted, budget.min(MOST), steps);
    is_answer(&answer, want)
}

/// Whether a knot weighs so much, and its first assignment has these rows and is found within this
/// budget, exactly where that is not below the weight. It makes at most so many ticks.
pub fn searched<P: Primitive, L: Ledger>(
    alloc: Global,
    wanted: &Wanted<'_, P>,
    weighs: u64,
    budget: u64,
    rows: &[u32],
    steps: &mut Steps<L>,
) -> bool
    requires wanted { IsWanted (net_of P.behaviour wanted.now.circuit.now) wanted.now }
    requires supply { IsSupply (net_of P.behaviour wanted.now.circuit.now) wanted.now.supply.now }
    requires short { AreShort wanted.now.supply.now }
    ensures { IsTrue result → steps.new ≤ steps.old + weighs }
{
    if !none_wide(wanted.supply) {
        return false;
    }
    let Ok(found) = weight(
        alloc,
        wanted.circuit,
        wanted.knots,
        wanted.supply,
        wanted.knot,
    ) else {
        return false;
    };
    let want = if budget < weighs {
        Answer::Fault(Exceeds::Spent {
            knot: wanted.knot,
            weight: weighs,
        })
    } else {
        Answer::Rows(rows)
    };
    found == weighs && answers(alloc, wanted, budget, want, steps)
}

/// Whether a knot is wide, and is not searched within this budget.
pub fn is_wide<P: Primitive, L: Ledger>(
    alloc: Global,
    wanted: &Wanted<'_, P>,
    budget: u64,
    steps: &mut Steps<L>,
) -> bool
    requires wanted { IsWanted (net_of P.behaviour wanted.now.circuit.now) wanted.now }
    requires supply { IsSupply (net_of P.behaviour wanted.now.circuit.now) wanted.now.supply.now }
    requires short { AreShort wanted.now.supply.now }
{
    let wide = Answer::Fault(Exceeds::Wide { knot: wanted.knot });
    !none_wide(wanted.supply) && answers(alloc, wanted, budget, wide, steps)
}
