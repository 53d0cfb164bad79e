//! Seeing which values with flow the rows of a side use.
ghost use Rattle.std.specs.Prelude.{◌≡◌, ◌≢◌, ◌<◌, ◌≤◌, ◌+◌, ℕ, true, false, None, Some, length, option_copied, slice_index, slice_index_or, []};
ghost use Rattle.reo_net_base.specs.Net.{net_of, all_sides, row_count};
ghost use Rattle.reo_net_laws.specs.Ends.{IsRowOf};
ghost use Rattle.reo_side_tables.specs.Marks.{side_in};
ghost use Rattle.reo_rows.specs.RowFlags.{flag, AreAlikeTables};
ghost use Rattle.reo_rows.specs.Rows.{AreTables, IsSeen};
ghost use Rattle.reo_rows.specs.Seeing.{HasValuePlaces, AreSeen, IsGivenValue, GivenUse, FollowedUse, FollowUse, TakenUse, TakesUse, AloneUse, RowUse, LiveRowUse};
ghost use Rattle.reo_rows.specs.Basis.{IsReadyOn};
ghost use Rattle.reo_rows.specs.Flowing.{IsFlowing, HasPlacesFor, TakesThere, GivesThere, names_in, family_in};
ghost use Rattle.reo_rows.specs.Sets.{family_of, names_of};

use crate::basis::Basis;
use crate::flags::RowFlags;
use crate::flowing::Flowing;
use crate::flows::flow_works;
use crate::items::gives_value;
use crate::marks::FLOWS;
use crate::rows::Rows;
use reo_net_base::Primitive;
use reo_side_tables::{follows, source_of};
use reo_values::Value;

/// No value with flow of a joint is seen.
fn unsee(seen: &mut RowFlags, joint: usize)
    requires { joint < length seen.old }
    ensures alike { AreAlikeTables seen.old seen.new }
    ensures here { (code : ℕ) → 4 ≤ code → flag seen.new joint code ≡ false }
    ensures other { (j code : ℕ) → j ≢ joint → flag seen.new j code ≡ flag seen.old j code }
{
    for code in FLOWS..seen.width(joint) {
        seen.put(joint, code, false);
    }
}

/// No value with flow of these joints is seen.
fn unsee_all(seen: &mut RowFlags, joints: &[usize])
    requires { (m : ℕ) → m < length joints.now → slice_index joints.now m < length seen.old }
    ensures alike { AreAlikeTables seen.old seen.new }
    ensures here { (m code : ℕ) → m < length joints.now → 4 ≤ code
        → flag seen.new (slice_index joints.now m) code ≡ false }
{
    for index in 0..joints.len() {
        unsee(seen, joints[index]);
    }
}

/// Sees a value of a joint, by its place, if a row gives it there with flow for what it takes.
fn see_value<P: Primitive>(
    flowing: &Flowing<'_, P>,
    seen: &mut RowFlags,
    joint: usize,
    taken: Option<&Value>,
    code: usize,
)
    requires flowing { IsFlowing (net_of P.behaviour flowing.now.basis.now.circuit.now)
        flowing.now }
    requires seen { let net = net_of P.behaviour flowing.now.basis.now.circuit.now in
        HasPlacesFor net flowing.now seen.old }
    requires gives { let net = net_of P.behaviour flowing.now.basis.now.circuit.now in
        GivesThere net flowing.now joint }
    requires flows { 4 ≤ code }
    requires code { code < length (slice_index_or flowing.now.basis.now.items.now joint []) + 4 }
    ensures { let net = net_of P.behaviour flowing.now.basis.now.circuit.now in
        AreSeen (IsGivenValue net (names_in flowing.now) (family_in flowing.now) flowing.now.row
        joint (option_copied taken.entry) code) seen.old seen.new }
{
    if flowing.alive.is_set(joint, code)
        && !seen.is_set(joint, code)
        && gives_value(flowing, joint, taken, code)
    {
        seen.put(joint, code, true);
    }
}

/// Sees the values of a joint that a row gives there with flow for what it takes.
fn see_given<P: Primitive>(
    flowing: &Flowing<'_, P>,
    seen: &mut RowFlags,
    joint: usize,
    taken: Option<&Value>,
)
    requires flowing { IsFlowing (net_of P.behaviour flowing.now.basis.now.circuit.now)
        flowing.now }
    requires seen { let net = net_of P.behaviour flowing.now.basis.now.circuit.now in
        HasPlacesFor net flowing.now seen.old }
    requires gives { let net = net_of P.behaviour flowing.now.basis.now.circuit.now in
        GivesThere net flowing.now joint }
    ensures { let net = net_of P.behaviour flowing.now.basis.now.circuit.now in
        AreSeen (GivenUse net (names_in flowing.now) (family_in flowing.now) flowing.now.row joint
        (option_copied taken.entry)) seen.old seen.new }
{
    for code in FLOWS..flowing.alive.width(joint) {
        see_value(flowing, seen, joint, taken, code);
    }
}

/// Sees the values that a row gives at a joint for an item that it takes in at another, if they
/// hang on it.
fn see_followed<P: Primitive>(
    flowing: &Flowing<'_, P>,
    seen: &mut RowFlags,
    source: usize,
    item: &Value,
    joint: usize,
)
    requires flowing { IsFlowing (net_of P.behaviour flowing.now.basis.now.circuit.now)
        flowing.now }
    requires seen { let net = net_of P.behaviour flowing.now.basis.now.circuit.now in
        HasPlacesFor net flowing.now seen.old }
    requires takes { let net = net_of P.behaviour flowing.now.basis.now.circuit.now in
        TakesThere net flowing.now source }
    requires gives { let net = net_of P.behaviour flowing.now.basis.now.circuit.now in
        GivesThere net flowing.now joint }
    ensures { let net = net_of P.behaviour flowing.now.basis.now.circuit.now in
        AreSeen (FollowedUse net (names_in flowing.now) (family_in flowing.now) flowing.now.row
        source (Some item.now) joint) seen.old seen.new }
{
    if follows(
        flowing.basis.circuit,
        flowing.side,
        flowing.row,
        joint,
        source,
    ) {
        see_given(flowing, seen, joint, Some(item));
    }
}

/// Sees the values that a row gives for an item that it takes in at a joint.
fn see_followers<P: Primitive>(
    flowing: &Flowing<'_, P>,
    seen: &mut RowFlags,
    source: usize,
    item: &Value,
)
    requires flowing { IsFlowing (net_of P.behaviour flowing.now.basis.now.circuit.now)
        flowing.now }
    requires seen { let net = net_of P.behaviour flowing.now.basis.now.circuit.now in
        HasPlacesFor net flowing.now seen.old }
    requires takes { let net = net_of P.behaviour flowing.now.basis.now.circuit.now in
        TakesThere net flowing.now source }
    ensures { let net = net_of P.behaviour flowing.now.basis.now.circuit.now in
        AreSeen (FollowUse net (names_in flowing.now) (family_in flowing.now) flowing.now.side
        flowing.now.row source (Some item.now)) seen.old seen.new }
{
    for index in 0..flowing.flow.giving.len() {
        let joint = *flowing.flow.giving.at(index);
        see_followed(flowing, seen, source, item, joint);
    }
}

/// Sees a value of a joint, by its place, if a row takes it in there with flow, and what it gives
/// for it.
fn see_taken<P: Primitive>(
    flowing: &Flowing<'_, P>,
    seen: &mut RowFlags,
    source: usize,
    code: usize,
)
    requires flowing { IsFlowing (net_of P.behaviour flowing.now.basis.now.circuit.now)
        flowing.now }
    requires seen { let net = net_of P.behaviour flowing.now.basis.now.circuit.now in
        HasPlacesFor net flowing.now seen.old }
    requires takes { let net = net_of P.behaviour flowing.now.basis.now.circuit.now in
        TakesThere net flowing.now source }
    requires flows { 4 ≤ code }
    requires code { code < length (slice_index_or flowing.now.alive.now source []) }
    ensures { let net = net_of P.behaviour flowing.now.basis.now.circuit.now in
        AreSeen (TakenUse net (names_in flowing.now) (family_in flowing.now) flowing.now.side
        flowing.now.row source code) seen.old seen.new }
{
    if flowing.alive.is_set(source, code) && flow_works(flowing, source, code) {
        seen.put(source, code, true);
        let item = flowing.basis.items[source].at(code - FLOWS);
        see_followers(flowing, seen, source, item);
    }
}

/// Sees the values that a row takes in with flow at a joint, and what it gives for them.
fn see_takes<P: Primitive>(flowing: &Flowing<'_, P>, seen: &mut RowFlags, source: usize)
    requires flowing { IsFlowing (net_of P.behaviour flowing.now.basis.now.circuit.now)
        flowing.now }
    requires seen { let net = net_of P.behaviour flowing.now.basis.now.circuit.now in
        HasPlacesFor net flowing.now seen.old }
    requires takes { let net = net_of P.behaviour flowing.now.basis.now.circuit.now in
        TakesThere net flowing.now source }
    ensures { let net = net_of P.behaviour flowing.now.basis.now.circuit.now in
        AreSeen (TakesUse net (names_in flowing.now) (family_in flowing.now) flowing.now.side
        flowing.now.row source) seen.old seen.new }
{
    for code in FLOWS..flowing.alive.width(source) {
        see_taken(flowing, seen, source, code);
    }
}

/// Sees the values that a row gives with flow at a joint, if its state alone decides them.
fn see_alone<P: Primitive>(flowing: &Flowing<'_, P>, seen: &mut RowFlags, joint: usize)
    requires flowing { IsFlowing (net_of P.behaviour flowing.now.basis.now.circuit.now)
        flowing.now }
    requires seen { let net = net_of P.behaviour flowing.now.basis.now.circuit.now in
        HasPlacesFor net flowing.now seen.old }
    requires gives { let net = net_of P.behaviour flowing.now.basis.now.circuit.now in
        GivesThere net flowing.now joint }
    ensures { let net = net_of P.behaviour flowing.now.basis.now.circuit.now in
        AreSeen (AloneUse net (names_in flowing.now) (family_in flowing.now) flowing.now.row joint)
        seen.old seen.new }
{
    if source_of(flowing.basis.circuit, flowing.side, flowing.row, joint).is_none() {
        see_given(flowing, seen, joint, None);
    }
}

/// Sees the values with flow that go with a row.
fn see_row<P: Primitive>(flowing: &Flowing<'_, P>, seen: &mut RowFlags)
    requires flowing { IsFlowing (net_of P.behaviour flowing.now.basis.now.circuit.now)
        flowing.now }
    requires seen { let net = net_of P.behaviour flowing.now.basis.now.circuit.now in
        HasPlacesFor net flowing.now seen.old }
    ensures { let net = net_of P.behaviour flowing.now.basis.now.circuit.now in
        AreSeen (RowUse net (names_in flowing.now) (family_in flowing.now) flowing.now.side
        flowing.now.row) seen.old seen.new }
{
    flowing.basis.circuit.known();
    for index in 0..flowing.flow.taking.len() {
        let source = *flowing.flow.taking.at(index);
        see_takes(flowing, seen, source);
    }
    for index in 0..flowing.flow.giving.len() {
        let joint = *flowing.flow.giving.at(index);
        see_alone(flowing, seen, joint);
    }
}

/// Sees the values with flow that go with a row of a side, if it has its flag.
fn see_live<P: Primitive>(
    basis: &Basis<'_, P>,
    alive: &RowFlags,
    live: &RowFlags,
    seen: &mut RowFlags,
    side: usize,
    row: usize,
)
    requires ready { let net = net_of P.behaviour basis.now.circuit.now in
        IsReadyOn net basis.now alive.now }
    requires live { side < length live.now }
    requires width { let net = net_of P.behaviour basis.now.circuit.now in
        length (slice_index_or live.now side []) ≡ row_count (side_in net side) }
    requires seen { let net = net_of P.behaviour basis.now.circuit.now in
        HasValuePlaces net basis.now.items.now seen.old }
    requires side { let net = net_of P.behaviour basis.now.circuit.now in
        side < length (all_sides net.primitives) }
    requires row { IsRowOf (net_of P.behaviour basis.now.circuit.now) side row }
    ensures { let net = net_of P.behaviour basis.now.circuit.now in
        AreSeen (LiveRowUse net (names_of basis.now.items.now) (family_of alive.now) live.now side
        row) seen.old seen.new }
{
    if live.is_set(side, row) {
        let flowing = Flowing {
            basis,
            alive,
            side,
            row,
            flow: basis.boards.at(side).flows.at(row),
        };
        see_row(&flowing, seen);
    }
}

/// Sees which values with flow at the joints of a side go with its rows that have their flags.
/// Those that were seen there before are forgotten. This takes no memory.
pub fn see<P: Primitive>(basis: &Basis<'_, P>, alive: &RowFlags, rows: &mut Rows, side: usize)
    requires ready { let net = net_of P.behaviour basis.now.circuit.now in
        IsReadyOn net basis.now alive.now }
    requires tables { let net = net_of P.behaviour basis.now.circuit.now in
        AreTables net basis.now.items.now rows.old }
    requires side { let net = net_of P.behaviour basis.now.circuit.now in
        side < length (all_sides net.primitives) }
    ensures tables { let net = net_of P.behaviour basis.now.circuit.now in
        AreTables net basis.now.items.now rows.new }
    ensures seen { let net = net_of P.behaviour basis.now.circuit.now in
        IsSeen net (names_of basis.now.items.now) (family_of alive.now) side rows.new }
    ensures live { rows.new.live ≡ rows.old.live }
    ensures notes { rows.new.notes ≡ rows.old.notes }
{
    unsee_all(&mut rows.seen, basis.boards.at(side).joints.as_slice());
    for row in 0..basis.circuit.rows(side) {
        see_live(basis, alive, &rows.live, &mut rows.seen, side, row);
    }
}
