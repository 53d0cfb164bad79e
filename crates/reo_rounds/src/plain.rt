//! A stage that only steps.
ghost use Rattle.std.specs.Prelude.{◌≡◌};

use crate::plan::{Done, Plan};
use crate::stage::Stage;
use reo_net_base::{Offer, Ported};
use reo_net_circuit::Circuit;

/// A circuit that goes on by the plans that it is given, and the number of rounds that were made:
/// no search stands behind it.
#[derive(Drop)]
pub struct PlainStage<P: Ported> {
    /// The circuit, with the offers that are pending.
    pub circuit: Circuit<P>,
    /// How many rounds were made.
    pub rounds: u64,
}

impl<P: Ported> PlainStage<P> {
    /// A stage on which no round was made.
    pub fn new(circuit: Circuit<P>) -> PlainStage<P>
        ensures circuit { result.circuit ≡ circuit }
        ensures rounds { result.rounds ≡ 0 }
    {
        PlainStage { circuit, rounds: 0 }
    }
}

impl<P: Ported> Stage<P> for PlainStage<P> {
    ghost circuit = { λ s. s.circuit };

    ghost rounds = { λ s. s.rounds };

    fn circuit(&self) -> &Circuit<P> {
        &self.circuit
    }

    fn rounds(&self) -> u64 {
        self.rounds
    }

    fn place(&mut self, port: usize, offer: Offer) {
        self.circuit.place(port, offer);
    }

    fn take_back(&mut self, port: usize) {
        self.circuit.withdraw(port);
    }

    fn make(&mut self, plan: Plan) -> Done {
        let Plan {
            colouring,
            moves,
            idle,
            jammed,
        } = plan;
        self.circuit.known_offers();
        self.circuit.step(colouring);
        self.rounds += 1;
        Done {
            moves,
            idle,
            jammed,
        }
    }
}
