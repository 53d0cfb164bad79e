//! What the ports offer.
ghost use Rattle.std.specs.Prelude.{◌<◌};

use reo_kinds::Kind;
use reo_net_base::Offer;
use reo_net_circuit::Circuit;
use reo_values::Value;

/// Which ports offer: all; those that write; or all but the last port.
#[derive(Clone, Copy)]
pub enum Ports {
    All,
    Writers,
    ButLast,
}

/// The ports that a word names.
pub fn ports_of(word: &str) -> Option<Ports> {
    match word {
        "all" => Some(Ports::All),
        "writers" => Some(Ports::Writers),
        "but-last" => Some(Ports::ButLast),
        _ => None,
    }
}

/// Offers 1 at a port that writes, and at another one to take, where that is asked for.
fn offer_at(circuit: &mut Circuit<Kind>, port: usize, takes: bool)
    requires { port < circuit.old.ports }
{
    let written = Offer::Write(Value::Int(1));
    if circuit.can_place(port, &written) {
        circuit.place(port, written);
    } else if takes && circuit.can_place(port, &Offer::Take) {
        circuit.place(port, Offer::Take);
    }
}

/// Makes the offers of these ports.
pub fn offer_all(circuit: &mut Circuit<Kind>, offering: Ports) {
    let takes = !matches!(offering, Ports::Writers);
    let ports = match offering {
        Ports::ButLast => circuit.ports().saturating_sub(1),
        _ => circuit.ports(),
    };
    for port in 0..ports {
        if port < circuit.ports() {
            offer_at(circuit, port, takes);
        }
    }
}
