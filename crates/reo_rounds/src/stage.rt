//! Where rounds are made.
ghost use Rattle.std.specs.Prelude.{◌≡◌, ◌+◌, ◌<◌, ◌^◌, ℕ, None, Some, map};
ghost use Rattle.reo_net_base.specs.Net.{Wiring, net_of};
ghost use Rattle.reo_net_base.specs.Step.{change_at, stepped};
ghost use Rattle.reo_net_circuit.specs.Offers.{AreAfterRound, OnlyPort};
ghost use Rattle.reo_rounds.specs.Offering.{IsPendingAt, IsTakenAt};
ghost use Rattle.reo_rounds.specs.Plans.{Suits};

use crate::plan::{Done, Plan};
use reo_net_base::{Offer, Ported};
use reo_net_circuit::Circuit;

/// Where rounds are made: a circuit that takes offers at its ports and goes on by plans that suit
/// it, and the number of rounds that were made.
pub trait Stage<P: Ported>: Drop {
    /// The circuit, with the offers that are pending.
    ghost circuit: { Self → Wiring P };

    /// How many rounds were made.
    ghost rounds: { Self → ℕ };

    /// The circuit, with the offers that are pending.
    fn circuit(&self) -> &Circuit<P>
        ensures { result.now ≡ circuit self.now };

    /// How many rounds were made.
    fn rounds(&self) -> u64
        ensures { result ≡ rounds self.now };

    /// Makes an offer pending that its port takes. This takes no memory.
    fn place(&mut self, port: usize, offer: Offer)
        requires { IsTakenAt (map P.port_state (circuit self.old).primitives)
            (circuit self.old).ports port offer }
        ensures circuit { let old = circuit self.old in
            let primitives = change_at (λ p. P.placed p offer) old.primitives port in
            circuit self.new ≡ record old { primitives = primitives } }
        ensures offers { OnlyPort (map P.port_state (circuit self.old).primitives)
            (map P.port_state (circuit self.new).primitives) port (Some offer) }
        ensures rounds { rounds self.new ≡ rounds self.old };

    /// Takes the offer back that is pending at a port. This takes no memory.
    fn take_back(&mut self, port: usize)
        requires { IsPendingAt (map P.port_state (circuit self.old).primitives)
            (circuit self.old).ports port }
        ensures circuit { let old = circuit self.old in
            let primitives = change_at P.withdrawn old.primitives port in
            circuit self.new ≡ record old { primitives = primitives } }
        ensures offers { OnlyPort (map P.port_state (circuit self.old).primitives)
            (map P.port_state (circuit self.new).primitives) port None }
        ensures rounds { rounds self.new ≡ rounds self.old };

    /// Makes a round that suits: the circuit steps, and one round more was made. This takes no
    /// memory.
    fn make(&mut self, plan: Plan) -> Done
        requires suits { let old = circuit self.old in
            Suits (net_of P.behaviour old) old.ports plan }
        requires few { rounds self.old < 2 ^ 63 }
        ensures circuit { let old = circuit self.old in
            let rows = plan.colouring.rows in
            let primitives = stepped P.behaviour P.settled old rows plan.colouring.items in
            circuit self.new ≡ record old { primitives = primitives } }
        ensures offers { let old = circuit self.old in
            let states = map P.port_state old.primitives in
            let after = map P.port_state (circuit self.new).primitives in
            AreAfterRound (net_of P.behaviour old) plan.colouring.rows old.ports states after }
        ensures rounds { rounds self.new ≡ rounds self.old + 1 }
        ensures moves { result.moves ≡ plan.moves }
        ensures idle { result.idle ≡ plan.idle };
}
