//! Offers at the ports of a connector.
ghost use Rattle.std.specs.Prelude.{◌≡◌, ◌↔◌, IsTrue, true, false, OnOk, IfErr, OnErr, MatchResult};
ghost use Rattle.reo_kinds.specs.Kinds.{placed_kind, withdrawn_kind};
ghost use Rattle.reo_net_base.specs.Step.{change_at};
ghost use Rattle.reo_rounds.specs.Offering.{IsOfferFault, IsPendingAt, IsTakenAt};
ghost use Rattle.reo_connector.specs.Held.{states_of, with_primitives};

use crate::connector::Connector;
use reo_net_base::Offer;
use reo_rounds::Declined;

impl Connector {
    /// Makes an offer pending at a port: to write an item there, or to take one. It takes no
    /// memory.
    ///
    /// # Errors
    ///
    /// The first of these that holds: `NoPort`, the number names no port; `WrongWay`, a write at an
    /// `out` port or a take at an `in` port; `Pending`, an offer is pending there; `ItemOutside`,
    /// the item is not in the port's type. Nothing changes, and the offer is handed back.
    pub fn offer(&mut self, port: usize, offer: Offer) -> Result<(), Declined>
        ensures exact { let states = states_of self.old in let ports = self.old.circuit.ports in
            MatchResult result (λ _. IsTakenAt states ports port offer)
            (λ declined. IsOfferFault states ports port offer declined.cause) }
        ensures placed { let old = self.old.circuit.primitives in
            let primitives = change_at (λ p. placed_kind p offer) old port in
            OnOk result (self.new ≡ with_primitives self.old primitives) }
        ensures refused { OnErr result (self.new ≡ self.old) }
        ensures handed_back { IfErr result (λ declined. declined.offer ≡ offer) }
    {
        self.engine.offer(port, offer)
    }

    /// Takes the offer that is pending at a port back. The answer is `false` exactly where the
    /// number names no port or nothing is pending there, and then nothing changes. It takes no
    /// memory.
    pub fn withdraw(&mut self, port: usize) -> bool
        ensures exact { let ports = self.old.circuit.ports in
            IsTrue result ↔ IsPendingAt (states_of self.old) ports port }
        ensures withdrawn { let old = self.old.circuit.primitives in
            let primitives = change_at withdrawn_kind old port in
            result ≡ true → self.new ≡ with_primitives self.old primitives }
        ensures same { result ≡ false → self.new ≡ self.old }
    {
        self.engine.withdraw(port)
    }
}
