//! All primitives go on.
ghost use Rattle.std.specs.Prelude.{◌≡◌, ◌+◌, ◌<◌, ◌==◌, cond, None, map, length, slice_index, slice_index_or, slice_set};
ghost use Rattle.reo_net_base.specs.Net.{net_of, all_sides, behaviour_at};
ghost use Rattle.reo_net_base.specs.Colouring.{AreRows};
ghost use Rattle.reo_net_base.specs.Step.{change_at, settled_list, all_chosen, all_taken};
ghost use Rattle.reo_net_circuit.specs.Parts.{wiring_of};
ghost use Rattle.reo_net_circuit.specs.Layout.{AreFirsts};
ghost use Rattle.reo_net_circuit.specs.CircuitTables.{AreMouths};

use reo_net_base::{Chosen, Joint, Primitive};
use reo_values::Value;

/// The rows of the one or two sides of a primitive, of which the first is at a place.
#[inline(always)]
pub fn chosen<P: Primitive>(primitive: &P, first: usize, rows: &[u32]) -> Chosen
    requires first { first < length rows.now }
    requires second { (P.behaviour primitive.now).sides ≡ 2 → first + 1 < length rows.now }
    ensures { result ≡ record {
      first = slice_index rows.now first;
      second = cond
          ((P.behaviour primitive.now).sides == 2) (slice_index rows.now (first + 1)) 0;
    } }
{
    let second = if primitive.sides() == 2 {
        rows[first + 1] as usize
    } else {
        0
    };
    Chosen {
        first: rows[first] as usize,
        second,
    }
}

/// Takes the item at a place out, if there is one.
fn take_item(items: &mut [Option<Value>], place: usize) -> Option<Value>
    ensures item { result ≡ slice_index_or items.old place None }
    ensures rest { items.new ≡ slice_set items.old place None }
{
    if place < items.len() {
        items[place].take()
    } else {
        None
    }
}

/// Each primitive goes on by the rows of its sides and the item at its mouth.
pub fn step_all<P: Primitive>(
    primitives: &mut [P],
    joints: &[Joint],
    firsts: &[usize],
    mouths: &[usize],
    rows: &[u32],
    mut items: Vec<Option<Value>>,
)
    requires firsts { AreFirsts (map P.behaviour primitives.old) firsts.now
        (length (map P.behaviour primitives.old)) }
    requires mouths { AreMouths
        (net_of P.behaviour (wiring_of primitives.old 0 joints.now)) mouths.now }
    requires rows { AreRows (all_sides (map P.behaviour primitives.old)) rows.now }
    requires items { length items.items ≡ length joints.now }
    ensures { primitives.new ≡ settled_list P.settled primitives.old
        (all_chosen (net_of P.behaviour (wiring_of primitives.old 0 joints.now)) rows.now)
        (all_taken (net_of P.behaviour (wiring_of primitives.old 0 joints.now)) items.items) }
{
    let _ = joints;
    for index in 0..primitives.len() {
        let rows = chosen(&primitives[index], firsts[index], rows);
        let item = take_item(&mut items, mouths[index]);
        let primitive = &mut primitives[index];
        primitive.settle(rows, item);
    }
}

/// One of the primitives goes on by the rows of its sides and an item that comes in at its mouth.
pub fn settle_at<P: Primitive>(
    primitives: &mut [P],
    index: usize,
    rows: Chosen,
    taken: Option<Value>,
)
    requires { index < length primitives.old }
    ensures { primitives.new ≡ change_at (λ p. P.settled p rows taken) primitives.old index }
{
    let primitive = &mut primitives[index];
    primitive.settle(rows, taken);
}
