//! What is looked at of the sides of a part.
ghost use Rattle.std.specs.Prelude.{◌≡◌, ◌-◌, ◌%◌, ◌<◌, ◌≤◌, ℕ, IfSome, IsTrue, IfOk, length, slice_index, slice_index_or};
ghost use Rattle.reo_net_base.specs.Forms.{period_in};
ghost use Rattle.reo_net_base.specs.Net.{Side, all_sides, net_of};
ghost use Rattle.reo_net_base.specs.Sides.{side_count};
ghost use Rattle.reo_part_plans.specs.Looks.{IsLookAt, IsKey};

use reo_net_base::{Form, Primitive};
use reo_net_circuit::Circuit;
use reo_values::{List, NoMemory};

/// What is looked at of a side: the number of its form, and after how many rounds since its classes
/// were as in the first round.
#[derive(Clone, Copy, PartialEq, Eq)]
pub struct Look {
    pub number: u32,
    pub rest: u64,
}

/// After how many rounds since its classes were as in the first round a form is in the round of a
/// number.
fn rest(form: Form, turn: u64) -> u64
    requires { 1 ≤ turn }
    ensures { result ≡ (turn - 1) % period_in form }
{
    match form {
        Form::Merging(branches) => (turn - 1) % branches.count as u64,
        _ => 0,
    }
}

/// What is looked at of a side in the round of a number: `None` where its table is of no form.
fn look_at<P: Primitive>(circuit: &Circuit<P>, side: usize, turn: u64) -> Option<Look>
    requires side { side < side_count (net_of P.behaviour circuit.now) }
    requires turn { 1 ≤ turn }
    ensures { IfSome result (λ look. (s : Side) →
        let at = slice_index_or (all_sides (net_of P.behaviour circuit.now).primitives) side s in
        IsLookAt at.of at.number turn look) }
{
    circuit.known();
    let owner = circuit.owner(side);
    let primitive = circuit.primitive(owner.primitive);
    match primitive.form(owner.side) {
        None => None,
        Some(form) => Some(Look {
            number: form.number(),
            rest: rest(form, turn),
        }),
    }
}

/// Whether this is what is looked at of a side in the round of a number.
fn is_look_at<P: Primitive>(circuit: &Circuit<P>, side: usize, turn: u64, look: Look) -> bool
    requires side { side < side_count (net_of P.behaviour circuit.now) }
    requires turn { 1 ≤ turn }
    ensures { IsTrue result → (s : Side) →
        let at = slice_index_or (all_sides (net_of P.behaviour circuit.now).primitives) side s in
        IsLookAt at.of at.number turn look }
{
    circuit.known();
    let owner = circuit.owner(side);
    let primitive = circuit.primitive(owner.primitive);
    match primitive.form(owner.side) {
        None => false,
        Some(form) => form.number() == look.number && rest(form, turn) == look.rest,
    }
}

/// Whether a key is that of some sides in the round of a number. At the first side that looks
/// otherwise it ends.
pub(crate) fn is_key<P: Primitive>(
    circuit: &Circuit<P>,
    sides: &[usize],
    turn: u64,
    key: &[Look],
) -> bool
    requires sides { (m : ℕ) → m < length sides.now
        → slice_index sides.now m < side_count (net_of P.behaviour circuit.now) }
    requires turn { 1 ≤ turn }
    ensures { IsTrue result → IsKey (net_of P.behaviour circuit.now) sides.now turn key.now }
{
    if key.len() != sides.len() {
        return false;
    }
    for index in 0..sides.len() {
        if !is_look_at(circuit, sides[index], turn, key[index]) {
            return false;
        }
    }
    true
}

/// Looks at some sides in the round of a number, and notes what was seen as a key. The answer is
/// whether it is one: at some side there may be nothing to look at.
///
/// # Errors
///
/// `NoMemory` is out of memory.
pub(crate) fn look_at_all<P: Primitive>(
    circuit: &Circuit<P>,
    sides: &[usize],
    turn: u64,
    key: &mut List<Look>,
) -> Result<bool, NoMemory>
    requires sides { (m : ℕ) → m < length sides.now
        → slice_index sides.now m < side_count (net_of P.behaviour circuit.now) }
    requires turn { 1 ≤ turn }
    ensures { IfOk result (λ is_key. IsTrue is_key
        → IsKey (net_of P.behaviour circuit.now) sides.now turn key.new) }
{
    key.clear();
    for index in 0..sides.len() {
        match look_at(circuit, sides[index], turn) {
            None => return Ok(false),
            Some(look) => key.push(look)?,
        }
    }
    Ok(true)
}
