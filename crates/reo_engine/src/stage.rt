//! Engines as stages of rounds.
use crate::engine::Engine;
use reo_net_base::{Offer, Ported};
use reo_net_circuit::Circuit;
use reo_rounds::{Done, Plan, Stage};

impl<P: Ported> Stage<P> for Engine<P> {
    ghost circuit = { λ e. e.circuit };

    ghost rounds = { λ e. e.rounds };

    fn circuit(&self) -> &Circuit<P> {
        &self.circuit
    }

    fn rounds(&self) -> u64 {
        self.rounds
    }

    fn place(&mut self, port: usize, offer: Offer) {
        let Ok(()) = self.offer(port, offer) else {
            unreachable!()
        };
    }

    fn take_back(&mut self, port: usize) {
        let _was_pending = self.withdraw(port);
    }

    fn make(&mut self, plan: Plan) -> Done {
        self.commit(plan)
    }
}
