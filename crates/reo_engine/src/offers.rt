//! Offers that come to an engine, and offers that go.
ghost use Rattle.std.specs.Prelude.{◌≡◌, ◌↔◌, IsTrue, true, false, Some, None, OnOk, IfErr, OnErr, MatchResult, map};
ghost use Rattle.reo_net_circuit.specs.Offers.{OnlyPort};
ghost use Rattle.reo_net_base.specs.Step.{change_at};
ghost use Rattle.reo_rounds.specs.Offering.{IsOfferFault, IsPendingAt, IsTakenAt};
ghost use Rattle.reo_settling.specs.Plannings.{IsUnsettled};
ghost use Rattle.reo_engine.specs.Engine.{net_now};

use crate::changes::mark;
use crate::engine::Engine;
use crate::offering::offer_fault;
use reo_net_base::{Offer, Ported};
use reo_rounds::Declined;

impl<P: Ported> Engine<P> {
    /// Makes an offer pending at a port. The parts of its sides are settled no longer, and all
    /// others stay settled that were. This takes no memory.
    ///
    /// # Errors
    ///
    /// The first of these that holds: `NoPort`, the number names no port; `WrongWay`, a write at an
    /// `out` port or a take at an `in` port; `Pending`, an offer is pending there; `ItemOutside`,
    /// the item is not in the port's type. The engine stays as it was, and the offer is handed
    /// back.
    pub fn offer(&mut self, port: usize, offer: Offer) -> Result<(), Declined>
        ensures exact { let states = map P.port_state self.old.circuit.primitives in
            let ports = self.old.circuit.ports in
            MatchResult result (λ _. IsTakenAt states ports port offer)
            (λ declined. IsOfferFault states ports port offer declined.cause) }
        ensures circuit { let old = self.old.circuit in
            let primitives = change_at (λ p. P.placed p offer) old.primitives port in
            OnOk result (self.new.circuit ≡ record old { primitives = primitives }) }
        ensures offers { let old = map P.port_state self.old.circuit.primitives in
            let new = map P.port_state self.new.circuit.primitives in
            OnOk result (OnlyPort old new port (Some offer)) }
        ensures rounds { self.new.rounds ≡ self.old.rounds }
        ensures changed { let marks = change_at (λ _. true) self.old.changed port in
            OnOk result (self.new.changed ≡ marks) }
        ensures settled { let net = net_now P.behaviour self.old in let knots = self.old.knots in
            OnOk result (IsUnsettled net knots port self.old.kept self.new.kept) }
        ensures knots { self.new.knots ≡ self.old.knots }
        ensures refused { OnErr result (self.new ≡ self.old) }
        ensures handed_back { IfErr result (λ declined. declined.offer ≡ offer) }
    {
        match offer_fault(&self.circuit, port, &offer) {
            Some(cause) => Err(Declined { cause, offer }),
            None => {
                let circuit = &self.circuit;
                circuit.known_ports();
                circuit.known();
                self.kept.unsettle(circuit, &self.knots, port);
                self.circuit.place(port, offer);
                self.circuit.known();
                mark(&mut self.changed, port);
                Ok(())
            }
        }
    }

    /// Takes the offer that is pending at a port back. The answer is `false` exactly where the
    /// number names no port or nothing is pending there, and then nothing changes. Else the parts
    /// of the port's sides are settled no longer, and all others stay settled that were. This takes
    /// no memory.
    pub fn withdraw(&mut self, port: usize) -> bool
        ensures exact { let states = map P.port_state self.old.circuit.primitives in
            IsTrue result ↔ IsPendingAt states self.old.circuit.ports port }
        ensures circuit { let old = self.old.circuit in
            let primitives = change_at P.withdrawn old.primitives port in
            result ≡ true → self.new.circuit ≡ record old { primitives = primitives } }
        ensures offers { let old = map P.port_state self.old.circuit.primitives in
            let new = map P.port_state self.new.circuit.primitives in
            result ≡ true → OnlyPort old new port None }
        ensures rounds { self.new.rounds ≡ self.old.rounds }
        ensures changed { let marks = change_at (λ _. true) self.old.changed port in
            result ≡ true → self.new.changed ≡ marks }
        ensures settled { let net = net_now P.behaviour self.old in let knots = self.old.knots in
            result ≡ true → IsUnsettled net knots port self.old.kept self.new.kept }
        ensures knots { self.new.knots ≡ self.old.knots }
        ensures same { result ≡ false → self.new ≡ self.old }
    {
        if self.circuit.ports() <= port {
            return false;
        }
        if !self.circuit.is_pending(port) {
            return false;
        }
        self.circuit.known_ports();
        self.circuit.known();
        self.kept.unsettle(&self.circuit, &self.knots, port);
        self.circuit.withdraw(port);
        self.circuit.known();
        mark(&mut self.changed, port);
        true
    }
}
