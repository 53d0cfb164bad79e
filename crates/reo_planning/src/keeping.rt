//! Keeping rows that were planned, and parts that are settled no longer.
ghost use Rattle.std.specs.Prelude.{◌≡◌, ◌<◌, ℕ, length};
ghost use Rattle.reo_net_base.specs.Net.{net_of};
ghost use Rattle.reo_net_base.specs.Sides.{side_count};
ghost use Rattle.reo_net_base.specs.Colouring.{RowsFit};
ghost use Rattle.reo_net_laws.specs.Knots.{AreKnots, knot_count};
ghost use Rattle.reo_flows.specs.flowing.Flowing.{AreFlowingIn};
ghost use Rattle.reo_planning.specs.Keeping.{AllServe, HasSizes, IsKept, is_open};
ghost use Rattle.reo_planning.specs.Marked.{AreMarked};
ghost use Rattle.reo_planning.specs.Planned.{ArePlanned};
ghost use Rattle.reo_planning.specs.Unsettling.{IsUnsettled, AreBetweenUnsettled, AreMarkedUnsettled, AreMovingUnsettled};

use crate::kept::Kept;
use reo_flags::Flags;
use reo_knots::Knots;
use reo_net_base::Primitive;
use reo_net_circuit::Circuit;
use reo_values::List;
use std::mem::replace;

impl Kept {
    /// Marks the parts that are not settled by rows that fit, and then all parts are settled.
    fn mark_rest<P: Primitive>(
        &mut self,
        circuit: &Circuit<P>,
        knots: &Knots,
        rows: &[u32],
        flowing: &List<List<usize>>,
    )
        requires knots { AreKnots (net_of P.behaviour circuit.now) knots.now }
        requires sizes { let sides = side_count (net_of P.behaviour circuit.now) in
            HasSizes sides (knot_count knots.now) self.old }
        requires rows { RowsFit (net_of P.behaviour circuit.now) rows.now }
        requires flowing { AreFlowingIn (net_of P.behaviour circuit.now) knots.now rows.now
            (is_open self.old) flowing.now }
        ensures { let net = net_of P.behaviour circuit.now in
            AreMarked net knots.now rows.now (knot_count knots.now) self.old self.new }
    {
        let _ = rows;
        circuit.known();
        let mut part = self.settled.next_clear(0);
        while part < self.settled.len() {
            self.moving.put(part, !flowing.at(part).is_empty());
            self.settled.put(part, true);
            part = self.settled.next_clear(part + 1);
        }
    }

    /// Keeps rows that were planned: all parts are settled, within the budget of the plan. The list
    /// of those that were kept before is handed back. For each part that was not settled the joints
    /// are given that flow in it. This takes no memory.
    pub fn store<P: Primitive>(
        &mut self,
        circuit: &Circuit<P>,
        knots: &Knots,
        flowing: &List<List<usize>>,
        rows: List<u32>,
        budget: u64,
    ) -> List<u32>
        requires knots { AreKnots (net_of P.behaviour circuit.now) knots.now }
        requires sizes { let sides = side_count (net_of P.behaviour circuit.now) in
            HasSizes sides (knot_count knots.now) self.old }
        requires rows { RowsFit (net_of P.behaviour circuit.now) rows }
        requires flowing { AreFlowingIn (net_of P.behaviour circuit.now) knots.now rows
            (is_open self.old) flowing.now }
        ensures kept { let net = net_of P.behaviour circuit.now in
            (turn : ℕ) → IsKept net knots.now turn self.old
            → ArePlanned budget net knots.now turn (knot_count knots.now) rows
            → IsKept net knots.now turn self.new }
        ensures settled { AllServe (knot_count knots.now) budget self.new }
        ensures rows { self.new.rows ≡ rows }
        ensures before { result ≡ self.old.rows }
    {
        circuit.known();
        let _order = circuit.order();
        self.mark_rest(circuit, knots, rows.as_slice(), flowing);
        self.budget = budget;
        replace(&mut self.rows, rows)
    }

    /// The parts of the sides of a primitive are not settled any more, and all others are as they
    /// were. This takes no memory.
    pub fn unsettle<P: Primitive>(&mut self, circuit: &Circuit<P>, knots: &Knots, primitive: usize)
        requires knots { AreKnots (net_of P.behaviour circuit.now) knots.now }
        requires one_each { length self.old.settled ≡ knot_count knots.now }
        requires primitive { primitive < length circuit.now.primitives }
        ensures { let net = net_of P.behaviour circuit.now in
            IsUnsettled net knots.now primitive self.old self.new }
    {
        circuit.known();
        let _count = circuit.sides();
        let first = circuit.first_of(primitive);
        for side in 0..circuit.primitive(primitive).sides() {
            self.settled.put(knots.knot_of(first + side), false);
        }
    }

    /// The parts of the sides of the primitives that are marked are not settled any more. This
    /// takes no memory.
    pub fn unsettle_marked<P: Primitive>(
        &mut self,
        circuit: &Circuit<P>,
        knots: &Knots,
        marks: &Flags,
    )
        requires knots { AreKnots (net_of P.behaviour circuit.now) knots.now }
        requires one_each { length self.old.settled ≡ knot_count knots.now }
        requires marks { length marks.now ≡ length circuit.now.primitives }
        ensures { let net = net_of P.behaviour circuit.now in
            AreMarkedUnsettled net knots.now marks.now (length marks.now) self.old self.new }
    {
        let mut primitive = marks.next_set(0);
        while primitive < marks.len() {
            self.unsettle(circuit, knots, primitive);
            primitive = marks.next_set(primitive + 1);
        }
    }

    /// The parts between which primitives stand that are marked, on both sides of those that have
    /// two, are not settled any more. This takes no memory.
    pub fn unsettle_between<P: Primitive>(
        &mut self,
        circuit: &Circuit<P>,
        knots: &Knots,
        marks: &Flags,
    )
        requires knots { AreKnots (net_of P.behaviour circuit.now) knots.now }
        requires one_each { length self.old.settled ≡ knot_count knots.now }
        requires marks { length marks.now ≡ length circuit.now.primitives }
        ensures { let net = net_of P.behaviour circuit.now in
            AreBetweenUnsettled net knots.now marks.now (length marks.now) self.old self.new }
    {
        let mut primitive = marks.next_set(0);
        while primitive < marks.len() {
            let is_between = circuit.primitive(primitive).sides() == 2;
            if is_between {
                self.unsettle(circuit, knots, primitive);
            }
            primitive = marks.next_set(primitive + 1);
        }
    }

    /// The parts in which something flows by the rows that are kept are not settled any more. This
    /// takes no memory.
    pub fn unsettle_moving(&mut self)
        requires { length self.old.settled ≡ length self.old.moving }
        ensures { AreMovingUnsettled self.old self.new }
    {
        self.settled.clear_where(&self.moving);
    }
}
