//! How many items rows can bring to a joint.
ghost use Rattle.std.specs.Prelude.{◌≡◌, ◌+◌, ◌<◌, ◌≤◌, ℕ, true, IfSome, length, slice_index};
ghost use Rattle.reo_net_base.specs.declared.form.Form.{Form as SideForm};
ghost use Rattle.reo_net_base.specs.declared.mark.Mark.TheVariants.{F};
ghost use Rattle.reo_net_base.specs.Forms.{HasForm, mark_by, rows_by};
ghost use Rattle.reo_net_base.specs.Net.{net_of, behaviour_at, end_of};
ghost use Rattle.reo_net_base.specs.Wired.{IsEnd};
ghost use Rattle.reo_net_circuit.specs.found_ends.Ends.{AreEnds, joint_at};
ghost use Rattle.reo_item_bounds.specs.Shares.{Covers, IsShare, AreShared};

use reo_net_base::{End, Form, Mark, Primitive};
use reo_net_circuit::{Circuit, Ends};

/// The number that is noted for the joint of an end that takes in, and 0 for one that gives.
fn noted<P: Primitive>(circuit: &Circuit<P>, ends: &Ends, bounds: &[u64], end: End) -> u64
    requires ends { AreEnds (net_of P.behaviour circuit.now) ends.now }
    requires one_each { length bounds.now ≡ length circuit.now.joints }
    requires end { IsEnd (net_of P.behaviour circuit.now).primitives end }
    ensures { let b = behaviour_at (net_of P.behaviour circuit.now).primitives end.primitive in
        b.takes_in end.end ≡ true
        → slice_index bounds.now (joint_at ends.now end) ≤ result }
{
    circuit.known();
    if circuit.primitive(end.primitive).takes_in(end.end) {
        bounds[ends.joint_at(end)]
    } else {
        0
    }
}

/// The greatest number that is noted for the joint of one of the first so many ends.
fn most_noted<P: Primitive>(
    circuit: &Circuit<P>,
    ends: &Ends,
    bounds: &[u64],
    primitive: usize,
    count: usize,
) -> u64
    requires ends { AreEnds (net_of P.behaviour circuit.now) ends.now }
    requires one_each { length bounds.now ≡ length circuit.now.joints }
    requires primitive { primitive < length circuit.now.primitives }
    requires count { count
        ≤ (behaviour_at (net_of P.behaviour circuit.now).primitives primitive).ends }
    ensures { let b = behaviour_at (net_of P.behaviour circuit.now).primitives primitive in
        (end : ℕ) → end < count → b.takes_in end ≡ true
        → slice_index bounds.now (joint_at ends.now (end_of primitive end)) ≤ result }
{
    let mut most = 0;
    for end in 0..count {
        most = most.max(noted(circuit, ends, bounds, End { primitive, end }));
    }
    most
}

/// The greatest number that is noted for a joint at which a row takes in.
fn most_by<P: Primitive>(
    circuit: &Circuit<P>,
    ends: &Ends,
    bounds: &[u64],
    giver: End,
    form: Form,
    row: usize,
) -> u64
    requires ends { AreEnds (net_of P.behaviour circuit.now) ends.now }
    requires one_each { length bounds.now ≡ length circuit.now.joints }
    requires giver { IsEnd (net_of P.behaviour circuit.now).primitives giver }
    requires form { let net = net_of P.behaviour circuit.now in
        let b = behaviour_at net.primitives giver.primitive in
        HasForm form b (b.side_of giver.end) }
    requires flows { mark_by form row giver.end ≡ F }
    ensures { let b = behaviour_at (net_of P.behaviour circuit.now).primitives giver.primitive in
        Covers b giver.primitive (b.side_of giver.end) form ends.now bounds.now row result }
{
    let primitive = giver.primitive;
    match form {
        Form::Single(_) => noted(circuit, ends, bounds, giver),
        Form::Double(_) => most_noted(circuit, ends, bounds, primitive, 2),
        Form::Merging(branches) => {
            let output = End {
                primitive,
                end: branches.count,
            };
            let input = End {
                primitive,
                end: row,
            };
            let most = noted(circuit, ends, bounds, output);
            most.max(noted(circuit, ends, bounds, input))
        }
        Form::Replicating(branches) => {
            most_noted(circuit, ends, bounds, primitive, branches.count + 1)
        }
    }
}

/// The share of a row by which an end flows.
fn share<P: Primitive>(
    circuit: &Circuit<P>,
    ends: &Ends,
    bounds: &[u64],
    giver: End,
    form: Form,
    row: usize,
) -> u64
    requires ends { AreEnds (net_of P.behaviour circuit.now) ends.now }
    requires one_each { length bounds.now ≡ length circuit.now.joints }
    requires giver { IsEnd (net_of P.behaviour circuit.now).primitives giver }
    requires form { let net = net_of P.behaviour circuit.now in
        let b = behaviour_at net.primitives giver.primitive in
        HasForm form b (b.side_of giver.end) }
    requires flows { mark_by form row giver.end ≡ F }
    ensures { let b = behaviour_at (net_of P.behaviour circuit.now).primitives giver.primitive in
        IsShare b giver.primitive (b.side_of giver.end) form ends.now bounds.now row result }
{
    most_by(circuit, ends, bounds, giver, form, row).max(1)
}

/// The shares of all rows by which an end flows, together: what is more than 256 is any such
/// number. `None` where the side of the end has no form.
pub(crate) fn shared<P: Primitive>(
    circuit: &Circuit<P>,
    ends: &Ends,
    bounds: &[u64],
    giver: End,
) -> Option<u64>
    requires ends { AreEnds (net_of P.behaviour circuit.now) ends.now }
    requires one_each { length bounds.now ≡ length circuit.now.joints }
    requires giver { IsEnd (net_of P.behaviour circuit.now).primitives giver }
    ensures { let b = behaviour_at (net_of P.behaviour circuit.now).primitives giver.primitive in
        IfSome result (λ sum. sum ≤ 256 → (form : SideForm) × HasForm form b (b.side_of giver.end)
        × AreShared b giver form ends.now bounds.now (rows_by form) sum) }
{
    circuit.known();
    let primitive = circuit.primitive(giver.primitive);
    let side = primitive.side_of(giver.end);
    match primitive.form(side) {
        None => None,
        Some(form) => {
            let mut sum: u64 = 0;
            for row in 0..form.rows() {
                if let Mark::F = form.mark(row, giver.end) {
                    sum = sum.saturating_add(share(circuit, ends, bounds, giver, form, row));
                }
            }
            Some(sum)
        }
    }
}
