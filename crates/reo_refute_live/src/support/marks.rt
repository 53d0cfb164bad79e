//! The marks of the values that are live at a joint.
ghost use Rattle.std.specs.Prelude.{◌≡◌, ◌↔◌, ◌<◌, ℕ, true, false, IsTrue, length, slice_index_or, []};
ghost use Rattle.reo_net_base.specs.declared.mark.Mark.{Mark as Said};
ghost use Rattle.reo_joint_values.specs.declared.value.JointValue.TheVariants.{Flow};
ghost use Rattle.reo_refute_base.specs.Live.{alone};
ghost use Rattle.reo_refute_live.specs.support.Families.{family_of, has};
ghost use Rattle.reo_refute_live.specs.support.Marks.{value_mark, HasMark, IsMarkOf};
ghost use Rattle.reo_side_tables.specs.Sets.{marks_has};

use crate::support::live::LiveAt;
use reo_joint_values::JointValue;
use reo_net_base::Mark;
use reo_side_tables::{Marks, marks_of};

/// Whether some item may flow.
fn has_flow(flows: &[bool]) -> bool
    ensures { IsTrue result ↔ ((n : ℕ) × (slice_index_or flows.now n false ≡ true)) }
{
    for number in 0..flows.len() {
        if flows[number] {
            return true;
        }
    }
    false
}

/// The marks that the live values of a joint put at its giver or at its taker.
fn live_marks(live: &LiveAt, gives: bool) -> Marks
    ensures { (m : Said) → (marks_has result m ≡ true) ↔ IsMarkOf (has live.now) gives m }
{
    let flow = has_flow(live.flows.as_slice());
    if gives {
        marks_of(flow, live.gr, live.gg, live.rg, live.jam)
    } else {
        marks_of(flow, live.rg, live.gg, live.gr, live.jam)
    }
}

/// The mark that a value puts at the giver or at the taker of its joint.
fn mark_of(value: JointValue, gives: bool) -> Mark
    ensures { result ≡ value_mark gives value }
{
    match (value, gives) {
        (JointValue::Flow(_), _) => Mark::F,
        (JointValue::RG, true) | (JointValue::GR, false) => Mark::R,
        (JointValue::Jam, _) => Mark::J,
        _ => Mark::G,
    }
}

/// The set of one mark.
fn one_mark(mark: Mark) -> Marks
    ensures { (m : Said) → (marks_has result m ≡ true) ↔ (mark ≡ m) }
{
    let none = Marks {
        flow: false,
        given: false,
        required: false,
        jam: false,
    };
    match mark {
        Mark::F => Marks { flow: true, ..none },
        Mark::G => Marks {
            given: true,
            ..none
        },
        Mark::R => Marks {
            required: true,
            ..none
        },
        Mark::J => Marks { jam: true, ..none },
    }
}

/// The marks that live values put at the giver or at the taker of a joint, where at the held joint
/// one value alone is live.
pub(crate) fn marks_left(
    live: &[LiveAt],
    held: usize,
    value: JointValue,
    joint: usize,
    gives: bool,
) -> Marks
    requires joint { joint < length live.now }
    requires live { family_of live.now held value ≡ true }
    ensures { (m : Said) → (marks_has result m ≡ true)
        ↔ HasMark (alone (family_of live.now) held value) joint gives m }
{
    if joint == held {
        one_mark(mark_of(value, gives))
    } else {
        live_marks(&live[joint], gives)
    }
}
