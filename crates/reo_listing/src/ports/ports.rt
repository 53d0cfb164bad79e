//! The ports of a part.
ghost use Rattle.std.specs.Prelude.{◌≡◌, ◌<◌, ◌++◌, [], ◌∷◌, cond, IfOk, OnOk, length};
ghost use Rattle.reo_net_base.specs.Net.{net_of, end_of, side_at};
ghost use Rattle.reo_net_laws.specs.Knots.{AreKnots, in_knot, knot_count};
ghost use Rattle.reo_open.specs.Opens.{open_behaviour};
ghost use Rattle.reo_listing.specs.base.Tables.{ports_in};

use reo_knots::Knots;
use reo_net_base::End;
use reo_net_circuit::Circuit;
use reo_open::Open;
use reo_values::{List, NoMemory};
use std::alloc::Global;

/// Whether a port is in a part.
fn is_in(circuit: &Circuit<Open>, knots: &Knots, part: usize, port: usize) -> bool
    requires knots { AreKnots (net_of open_behaviour circuit.now) knots.now }
    requires port { port < circuit.now.ports }
    ensures { let net = net_of open_behaviour circuit.now in
        result ≡ in_knot knots.now.numbers part (side_at net (end_of port 0)) }
{
    circuit.known();
    circuit.known_ports();
    let end = End {
        primitive: port,
        end: 0,
    };
    knots.knot_of(circuit.side_of(end)) == part
}

/// Adds a port, if it is in a part.
fn add(ports: &mut List<usize>, port: usize, wanted: bool) -> Result<(), NoMemory>
    ensures { OnOk result (ports.new ≡ ports.old ++ cond wanted (port ∷ []) []) }
{
    if !wanted {
        return Ok(());
    }
    ports.push(port)
}

/// The ports of a part, in order. `NoMemory` is out of memory.
pub fn ports_of(
    alloc: Global,
    circuit: &Circuit<Open>,
    knots: &Knots,
    part: usize,
) -> Result<List<usize>, NoMemory>
    requires { AreKnots (net_of open_behaviour circuit.now) knots.now }
    ensures { IfOk result (λ ports. ports ≡ ports_in (net_of open_behaviour circuit.now)
        circuit.now.ports (in_knot knots.now.numbers part)) }
{
    circuit.known();
    let mut ports = List::new(alloc);
    for port in 0..circuit.ports() {
        add(&mut ports, port, is_in(circuit, knots, part, port))?;
    }
    Ok(ports)
}
