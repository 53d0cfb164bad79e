//! The rows that are allowed at the places of a key, one place after another.
ghost use Rattle.std.specs.Prelude.{◌≡◌, ◌↔◌, ℕ, ◌+◌, ◌<◌, List, IfOk, IsTrue, length};
ghost use Rattle.reo_net_base.specs.Net.{Net, net_of};
ghost use Rattle.reo_net_base.specs.Sides.{side_count, AreRowsOf};
ghost use Rattle.reo_refute_base.specs.Places.{IsAllowed, IsLive};
ghost use Rattle.reo_refute_parts.specs.places.KeyPlaces.{IsPlace};
ghost use Rattle.reo_refute_parts.specs.places.AllowedRows.{AreBytes, AreAgreeing, AreAllowedRows};

use crate::places::marking::{all_marked, clear_others, has_mark, mark_smaller};
use crate::places::place::SidePlace;
use crate::places::places::number_of;
use reo_net_base::Primitive;
use reo_net_circuit::Circuit;
use reo_values::{List, NoMemory};
use std::alloc::Global;

/// For each side a byte for each row, which is not 0 exactly where the row is allowed.
#[derive(Drop)]
pub struct AllowedRows {
    /// The rows that put the numbers of the given rows at all places before.
    pub agreeing: List<List<u8>>,
    /// The side of the present place.
    pub side: usize,
    /// Its rows that are allowed.
    pub smaller: List<u8>,
}

impl AllowedRows {
    /// Before the first place each row agrees. `NoMemory` is out of memory.
    pub fn new<P: Primitive>(alloc: Global, circuit: &Circuit<P>) -> Result<AllowedRows, NoMemory>
        ensures { let net = net_of P.behaviour circuit.now in
            IfOk result (λ allowed. (turn : ℕ) (given : List ℕ)
            → AreAgreeing net turn given 0 allowed.agreeing) }
    {
        let mut agreeing = List::new(alloc);
        for side in 0..circuit.sides() {
            agreeing.push(all_marked(alloc, circuit.rows(side))?)?;
        }
        Ok(AllowedRows {
            agreeing,
            side: circuit.sides(),
            smaller: List::new(alloc),
        })
    }

    /// Comes to a place: whether it is live. `NoMemory` is out of memory.
    pub fn come_to<P: Primitive>(
        &mut self,
        circuit: &Circuit<P>,
        turn: u64,
        given: &[u32],
        number: usize,
        place: SidePlace,
    ) -> Result<bool, NoMemory>
        requires given { AreRowsOf (net_of P.behaviour circuit.now) given.now }
        requires place { IsPlace (net_of P.behaviour circuit.now) turn number place }
        requires agreeing { AreAgreeing (net_of P.behaviour circuit.now) turn given.now number
            self.old.agreeing }
        ensures live { let net = net_of P.behaviour circuit.now in
            IfOk result (λ live. IsTrue live ↔ IsLive net turn given.now number) }
        ensures allowed { let net = net_of P.behaviour circuit.now in
            IfOk result (λ _. AreAllowedRows net turn given.now number self.new) }
    {
        let wanted = number_of(circuit, turn, place, circuit.row(given, place.side));
        let agreeing = self.agreeing.at(place.side).as_slice();
        self.side = place.side;
        mark_smaller(circuit, turn, place, wanted, agreeing, &mut self.smaller)?;
        Ok(has_mark(self.smaller.as_slice()))
    }

    /// Goes past a place. This takes no memory.
    pub fn pass<P: Primitive>(
        &mut self,
        circuit: &Circuit<P>,
        turn: u64,
        given: &[u32],
        number: usize,
        place: SidePlace,
    )
        requires given { AreRowsOf (net_of P.behaviour circuit.now) given.now }
        requires place { IsPlace (net_of P.behaviour circuit.now) turn number place }
        requires agreeing { AreAgreeing (net_of P.behaviour circuit.now) turn given.now number
            self.old.agreeing }
        ensures { AreAgreeing (net_of P.behaviour circuit.now) turn given.now (number + 1)
            self.new.agreeing }
    {
        let wanted = number_of(circuit, turn, place, circuit.row(given, place.side));
        clear_others(
            circuit,
            turn,
            place,
            wanted,
            self.agreeing.at_mut(place.side),
        );
    }

    /// The bytes of the rows of a side: at a place to which this came they are not 0 exactly where
    /// the row is allowed.
    pub fn rows(&self, side: usize) -> &[u8]
        requires { side < length self.now.agreeing }
        ensures { (net : Net) (turn : ℕ) (given : List ℕ) (p : ℕ)
            → AreAllowedRows net turn given p self.now
            → AreBytes net side (IsAllowed net turn given p side) result.now }
    {
        if side == self.side {
            self.smaller.as_slice()
        } else {
            self.agreeing.at(side).as_slice()
        }
    }
}
