//! Finding an entry by its key.
ghost use Rattle.std.specs.Prelude.{◌≡◌, ◌<◌, ◌≤◌, ℕ, IfSome, IsTrue, length, slice_index, slice_index_or};
ghost use Rattle.reo_net_base.specs.Net.{net_of};
ghost use Rattle.reo_net_base.specs.Sides.{side_count};
ghost use Rattle.reo_part_plans.specs.Given.{AreGiven};
ghost use Rattle.reo_part_plans.specs.declared.entry.RememberedRows.{RememberedRows as Remembered};

use crate::entry::RememberedRows;
use crate::given::are_given;
use crate::looks::Look;
use reo_net_base::Primitive;
use reo_net_circuit::Circuit;
use reo_values::List;

/// Whether two keys are the same.
fn is_same(key: &[Look], other: &[Look]) -> bool
    ensures { IsTrue result → key.now ≡ other.now }
{
    if key.len() != other.len() {
        return false;
    }
    for index in 0..key.len() {
        if key[index].number != other[index].number || key[index].rest != other[index].rest {
            return false;
        }
    }
    true
}

/// The place of an entry with a key whose items the state gives at some sides, looked for from a
/// place on, up to another.
fn find_among<P: Primitive>(
    entries: &List<RememberedRows>,
    circuit: &Circuit<P>,
    sides: &[usize],
    key: &[Look],
    from: usize,
    to: usize,
) -> Option<usize>
    requires places { to ≤ length entries.now }
    requires sides { (m : ℕ) → m < length sides.now
        → slice_index sides.now m < side_count (net_of P.behaviour circuit.now) }
    ensures { IfSome result (λ place. (place < length entries.now)
        × ((d : Remembered) → ((slice_index_or entries.now place d).key ≡ key.now)
        × AreGiven (net_of P.behaviour circuit.now) sides.now
        (slice_index_or entries.now place d).items)) }
{
    for place in from..to {
        let entry = entries.at(place);
        let items = entry.items.as_slice();
        if (items.len() == 0 || are_given(circuit, sides, items))
            && is_same(entry.key.as_slice(), key)
        {
            return Some(place);
        }
    }
    None
}

/// The place of an entry with a key whose items the state gives at some sides, looked for from a
/// place on, and then from the first on.
pub(crate) fn find<P: Primitive>(
    entries: &List<RememberedRows>,
    circuit: &Circuit<P>,
    sides: &[usize],
    key: &[Look],
    from: usize,
) -> Option<usize>
    requires { (m : ℕ) → m < length sides.now
        → slice_index sides.now m < side_count (net_of P.behaviour circuit.now) }
    ensures { IfSome result (λ place. (place < length entries.now)
        × ((d : Remembered) → ((slice_index_or entries.now place d).key ≡ key.now)
        × AreGiven (net_of P.behaviour circuit.now) sides.now
        (slice_index_or entries.now place d).items)) }
{
    let count = entries.len();
    let from = from.min(count);
    match find_among(entries, circuit, sides, key, from, count) {
        Some(place) => Some(place),
        None => find_among(entries, circuit, sides, key, 0, from),
    }
}
