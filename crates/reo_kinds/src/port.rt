//! The kinds as ports.
ghost use Rattle.reo_kinds.specs.Kinds.{port_state_of, placed_kind, withdrawn_kind};
ghost use Rattle.reo_kinds.specs.TellingLaws.{placed_kind_lasting, placed_kind_tables, withdrawn_kind_lasting, withdrawn_kind_tables};
ghost use Rattle.reo_kinds.specs.PortStateLaws.{no_port_kind, placed_kind_port, placed_kind_shape, placed_kind_alike, withdrawn_kind_port, withdrawn_kind_shape, withdrawn_kind_alike, placed_kind_again, settled_kind_port};

use crate::kind::Kind;
use crate::offer;
use reo_net_base::{Offer, Ported, Restoring, Way};
use reo_values::{Value, is_in};

impl Ported for Kind {
    ghost port_state = { port_state_of };

    ghost placed = { placed_kind };

    ghost withdrawn = { withdrawn_kind };

    fn way(&self) -> Option<Way> {
        match self {
            Kind::Writer(_) => Some(Way::In),
            Kind::Taker(_) => Some(Way::Out),
            _ => None,
        }
    }

    fn fits(&self, item: &Value) -> bool {
        match self {
            Kind::Writer(port) => is_in(item, &port.kindred),
            _ => false,
        }
    }

    fn pending(&self) -> bool {
        match self {
            Kind::Writer(port) => port.offer.is_some(),
            Kind::Taker(port) => port.pending,
            _ => false,
        }
    }

    fn place(&mut self, offer: Offer) {
        match (self, offer) {
            (Kind::Writer(port), Offer::Write(item)) => offer::place(port, item),
            (Kind::Taker(port), Offer::Take) => port.pending = true,
            _ => {}
        }
    }

    fn withdraw(&mut self) {
        match self {
            Kind::Writer(port) => offer::withdraw(port),
            Kind::Taker(port) => port.pending = false,
            _ => {}
        }
    }

    ghost no_port = { no_port_kind };

    ghost placed_port = { placed_kind_port };

    ghost placed_shape = { placed_kind_shape };

    ghost placed_alike = { placed_kind_alike };

    ghost placed_lasting = { placed_kind_lasting };

    ghost placed_tables = { placed_kind_tables };

    ghost withdrawn_port = { withdrawn_kind_port };

    ghost withdrawn_shape = { withdrawn_kind_shape };

    ghost withdrawn_alike = { withdrawn_kind_alike };

    ghost withdrawn_lasting = { withdrawn_kind_lasting };

    ghost withdrawn_tables = { withdrawn_kind_tables };

    ghost settled_port = { settled_kind_port };
}

impl Restoring for Kind {
    ghost placed_again = { placed_kind_again };
}
