//! What stands in open circuits, as ports.
//!
//! At a gate one thing may be offered: that the surroundings require a reason, which stands for a
//! take. It is pending where the gate has that row alone.
ghost use Rattle.reo_open.specs.OpenPorts.{open_port_state, open_placed, open_withdrawn, no_port_open, placed_open_port, placed_open_shape, placed_open_alike, placed_open_lasting, placed_open_tables, withdrawn_open_port, withdrawn_open_shape, withdrawn_open_alike, withdrawn_open_lasting, withdrawn_open_tables, settled_open_port};

use crate::gate::GateRows;
use crate::opens::Open;
use reo_net_base::{Offer, Ported, Way};
use reo_values::Value;

impl Ported for Open {
    ghost port_state = { open_port_state };

    ghost placed = { open_placed };

    ghost withdrawn = { open_withdrawn };

    fn way(&self) -> Option<Way> {
        match self {
            Open::Border(_) => Some(Way::Out),
            Open::Inner(_) => None,
        }
    }

    fn fits(&self, _item: &Value) -> bool {
        false
    }

    fn pending(&self) -> bool {
        match self {
            Open::Border(gate) => gate.allowed == GateRows::Required,
            Open::Inner(_) => false,
        }
    }

    fn place(&mut self, _offer: Offer) {
        if let Open::Border(gate) = self {
            gate.allowed = GateRows::Required;
        }
    }

    fn withdraw(&mut self) {
        if let Open::Border(gate) = self {
            gate.allowed = GateRows::All;
        }
    }

    ghost no_port = { no_port_open };

    ghost placed_port = { placed_open_port };

    ghost placed_shape = { placed_open_shape };

    ghost placed_alike = { placed_open_alike };

    ghost placed_lasting = { placed_open_lasting };

    ghost placed_tables = { placed_open_tables };

    ghost withdrawn_port = { withdrawn_open_port };

    ghost withdrawn_shape = { withdrawn_open_shape };

    ghost withdrawn_alike = { withdrawn_open_alike };

    ghost withdrawn_lasting = { withdrawn_open_lasting };

    ghost withdrawn_tables = { withdrawn_open_tables };

    ghost settled_port = { settled_open_port };
}
