//! Bounds that are kept from search to search.
ghost use Rattle.std.specs.Prelude.{◌≡◌, ◌<◌, ◌≤◌, ℕ, true, Some, None, IfOk, IsTrue, Contains, length, replicate, slice_index, slice_index_or};
ghost use Rattle.reo_net_base.specs.Net.{Net as Network, net_of};
ghost use Rattle.reo_net_circuit.specs.found_ends.Ends.{AreEnds};
ghost use Rattle.reo_item_bounds.specs.Bounds.{IsBoundAt};
ghost use Rattle.reo_item_bounds.specs.Kept.{AreKeptBounds, AreUnnumbered, HoldFed};

use crate::checking::{MANY, brought, is_bound, number_at};
use reo_net_base::Primitive;
use reo_net_circuit::{Circuit, Ends};
use reo_values::{List, NoMemory};
use std::alloc::Global;

/// For each joint of a circuit how many items can stand there at most, and the number of the form
/// of the giver's side for which this was checked, or none. It is right for each circuit of the
/// same shape, whatever its state.
#[derive(Drop)]
pub struct Bounds {
    pub(crate) bounds: List<u64>,
    pub(crate) numbers: List<Option<u32>>,
}

/// So many zeros. `NoMemory` is out of memory.
fn zeros(alloc: Global, count: usize) -> Result<List<u64>, NoMemory>
    ensures { IfOk result (λ made. length made ≡ count) }
{
    match vec![in alloc; 0; count] {
        Ok(made) => Ok(List::from_vec(made)),
        Err(_) => Err(NoMemory),
    }
}

/// So many places without a number. `NoMemory` is out of memory.
fn no_numbers(alloc: Global, count: usize) -> Result<List<Option<u32>>, NoMemory>
    ensures { IfOk result (λ made. made ≡ replicate count None) }
{
    match vec![in alloc; None; count] {
        Ok(made) => Ok(List::from_vec(made)),
        Err(_) => Err(NoMemory),
    }
}

impl Bounds {
    /// For a circuit, in whatever state of it: nothing is checked yet. `NoMemory` is out of memory.
    pub fn new<P: Primitive>(alloc: Global, circuit: &Circuit<P>) -> Result<Bounds, NoMemory>
        ensures { IfOk result (AreKeptBounds (net_of P.behaviour circuit.now)) }
    {
        let bounds = zeros(alloc, circuit.joint_count())?;
        let numbers = no_numbers(alloc, circuit.joint_count())?;
        Ok(Bounds { bounds, numbers })
    }

    /// Whether what is noted for a joint is known to be a bound for the form of a number.
    fn is_checked(&self, joint: usize, number: u32) -> bool
        requires { joint < length self.now.numbers }
        ensures { IsTrue result → slice_index_or self.now.numbers joint None ≡ Some number }
    {
        match *self.numbers.at(joint) {
            None => false,
            Some(checked) => checked == number,
        }
    }

    /// Whether what is noted for a joint is a bound. It is checked where the giver's side has
    /// another form than it had when it was checked last.
    fn is_bound<P: Primitive>(&mut self, circuit: &Circuit<P>, ends: &Ends, joint: usize) -> bool
        requires ends { AreEnds (net_of P.behaviour circuit.now) ends.now }
        requires kept { AreKeptBounds (net_of P.behaviour circuit.now) self.old }
        requires joint { joint < length circuit.now.joints }
        ensures kept { AreKeptBounds (net_of P.behaviour circuit.now) self.new }
        ensures same { self.new.bounds ≡ self.old.bounds }
        ensures bound { let net = net_of P.behaviour circuit.now in
            IsTrue result → IsBoundAt net (slice_index self.old.bounds) joint }
    {
        circuit.known();
        let Some(number) = number_at(circuit, joint) else {
            return false;
        };
        if self.is_checked(joint, number) {
            return true;
        }
        if !is_bound(circuit, ends, self.bounds.as_slice(), joint) {
            return false;
        }
        *self.numbers.at_mut(joint) = Some(number);
        true
    }

    /// Whether what is noted for each of some joints is a bound.
    pub(crate) fn are_bounds<P: Primitive>(
        &mut self,
        circuit: &Circuit<P>,
        ends: &Ends,
        joints: &[usize],
    ) -> bool
        requires ends { AreEnds (net_of P.behaviour circuit.now) ends.now }
        requires kept { AreKeptBounds (net_of P.behaviour circuit.now) self.old }
        requires joints { (j : ℕ) → Contains joints.now j → j < length circuit.now.joints }
        ensures kept { AreKeptBounds (net_of P.behaviour circuit.now) self.new }
        ensures bounds { let net = net_of P.behaviour circuit.now in
            IsTrue result → (j : ℕ) → Contains joints.now j
            → IsBoundAt net (slice_index self.new.bounds) j }
    {
        for index in 0..joints.len() {
            if !self.is_bound(circuit, ends, joints[index]) {
                return false;
            }
        }
        true
    }

    /// Forgets the numbers of some joints.
    fn forget(&mut self, joints: &[usize])
        requires { (j : ℕ) → Contains joints.now j → j < length self.old.numbers }
        ensures kept { (net : Network) → AreKeptBounds net self.old → AreKeptBounds net self.new }
        ensures none { AreUnnumbered self.new.numbers joints.now }
    {
        for index in 0..joints.len() {
            *self.numbers.at_mut(joints[index]) = None;
        }
    }

    /// What is to be noted for a joint: what its giver's rows bring by what is noted, or what is
    /// noted, if that is more and counts.
    fn bound_for<P: Primitive>(
        &self,
        circuit: &Circuit<P>,
        ends: &Ends,
        joint: usize,
        counts: bool,
    ) -> u64
        requires ends { AreEnds (net_of P.behaviour circuit.now) ends.now }
        requires one_each { length self.now.bounds ≡ length circuit.now.joints }
        requires joint { joint < length circuit.now.joints }
        ensures { counts ≡ true → slice_index self.now.bounds joint ≤ result }
    {
        let bounds = self.bounds.as_slice();
        let bound = brought(circuit, ends, bounds, joint);
        if counts {
            bound.max(bounds[joint])
        } else {
            bound
        }
    }

    /// Notes for each of some joints, in order, what its giver's rows bring by the numbers before
    /// it, or what was noted, if that is more and counts. The answer is whether no number is above
    /// 256: at the first that is it ends.
    fn note_all<P: Primitive>(
        &mut self,
        circuit: &Circuit<P>,
        ends: &Ends,
        joints: &[usize],
        counts: bool,
    ) -> bool
        requires ends { AreEnds (net_of P.behaviour circuit.now) ends.now }
        requires kept { AreKeptBounds (net_of P.behaviour circuit.now) self.old }
        requires joints { (j : ℕ) → Contains joints.now j → j < length circuit.now.joints }
        requires fed { HoldFed (net_of P.behaviour circuit.now) joints.now }
        requires none { AreUnnumbered self.old.numbers joints.now }
        ensures { AreKeptBounds (net_of P.behaviour circuit.now) self.new }
    {
        circuit.known();
        for index in 0..joints.len() {
            let bound = self.bound_for(circuit, ends, joints[index], counts);
            *self.bounds.at_mut(joints[index]) = bound;
            if bound >= MANY {
                return false;
            }
        }
        true
    }

    /// Notes bounds of some joints anew, which stand in an order in which items can be found. What
    /// was noted counts or does not. The answer is whether no number is above 256.
    pub(crate) fn note<P: Primitive>(
        &mut self,
        circuit: &Circuit<P>,
        ends: &Ends,
        joints: &[usize],
        counts: bool,
    ) -> bool
        requires ends { AreEnds (net_of P.behaviour circuit.now) ends.now }
        requires kept { AreKeptBounds (net_of P.behaviour circuit.now) self.old }
        requires joints { (j : ℕ) → Contains joints.now j → j < length circuit.now.joints }
        requires fed { HoldFed (net_of P.behaviour circuit.now) joints.now }
        ensures { AreKeptBounds (net_of P.behaviour circuit.now) self.new }
    {
        self.forget(joints);
        self.note_all(circuit, ends, joints, counts)
    }
}
