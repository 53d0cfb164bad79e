//! The lists that the ports of a part have, from port to port.
ghost use Rattle.std.specs.Prelude.{◌≡◌, ◌≢◌, ◌<◌, ◌≤◌, ◌-◌, ◌^◌, Bool, OnOk, MatchResult, length, slice_index};
ghost use Rattle.reo_net_base.specs.Net.{net_of};
ghost use Rattle.reo_net_laws.specs.Knots.{in_knot};
ghost use Rattle.reo_open.specs.declared.gate.GateRows.TheVariants.{All};
ghost use Rattle.reo_open.specs.Opens.{open_behaviour};
ghost use Rattle.reo_listing.specs.laws.Extended.{Extends, IsExtendFault};
ghost use Rattle.reo_listing.specs.laws.Gated.{allowed_for, gate_of, IsGate, put_at};
ghost use Rattle.reo_listing.specs.laws.Searched.{IsSearched, HasThreeColouring};
ghost use Rattle.reo_listing.specs.rows.Lookups.{AreLookupsBeside};

use crate::base::ListFault;
use crate::rows::adding::add;
use crate::rows::holding::{allow, allowed_for};
use crate::rows::lookups::Lookups;
use crate::rows::meeting::meets;
use reo_knots::Knots;
use reo_net_base::Mark;
use reo_net_circuit::{Circuit, ends_stay};
use reo_open::{GateRows, Open};
use reo_steps::Steps;
use reo_values::List;
use std::alloc::Global;
use std::sync::ledger::Ledger;

/// Adds the lists that begin with the front, where some do.
#[cycle(walking)]
pub(crate) fn extend<L: Ledger>(
    alloc: Global,
    circuit: &mut Circuit<Open>,
    knots: &Knots,
    part: usize,
    ports: &[usize],
    budget: u64,
    lookups: &mut Lookups,
    front: &mut List<Mark>,
    rows: &mut List<List<Mark>>,
    steps: &mut Steps<L>,
) -> Result<(), ListFault>
    requires budget { budget < 10 ^ 18 }
    requires searched { IsSearched circuit.old knots.now part budget ports.now front.old }
    requires lookups { AreLookupsBeside (net_of open_behaviour circuit.old) knots.now part
        lookups.old }
    requires some { HasThreeColouring
        (net_of open_behaviour circuit.old) (in_knot knots.now.numbers part) }
    requires few { length rows.old ≤ 4096 }
    ensures circuit { OnOk result (circuit.new ≡ circuit.old) }
    ensures lookups { OnOk result (AreLookupsBeside (net_of open_behaviour circuit.old) knots.now
        part lookups.new) }
    ensures few { OnOk result (length rows.new ≤ 4096) }
    ensures front { OnOk result (front.new ≡ front.old) }
    ensures rows { let net = net_of open_behaviour circuit.old in
        let inside = in_knot knots.now.numbers part in
        MatchResult result (λ _. Extends net inside ports.now rows.old rows.new)
        (IsExtendFault net inside ports.now rows.old part) }
{
    if front.len() == ports.len() {
        return add(alloc, front.as_slice(), rows, part);
    }
    match say(
        alloc,
        circuit,
        knots,
        part,
        ports,
        budget,
        lookups,
        front,
        rows,
        steps,
        Mark::F,
    ) {
        Err(fault) => Err(fault),
        Ok(()) => match say(
            alloc,
            circuit,
            knots,
            part,
            ports,
            budget,
            lookups,
            front,
            rows,
            steps,
            Mark::G,
        ) {
            Err(fault) => Err(fault),
            Ok(()) => say(
                alloc,
                circuit,
                knots,
                part,
                ports,
                budget,
                lookups,
                front,
                rows,
                steps,
                Mark::R,
            ),
        },
    }
}

/// Adds the lists that begin with the front and then say this, if any do.
#[cycle(walking)]
fn say<L: Ledger>(
    alloc: Global,
    circuit: &mut Circuit<Open>,
    knots: &Knots,
    part: usize,
    ports: &[usize],
    budget: u64,
    lookups: &mut Lookups,
    front: &mut List<Mark>,
    rows: &mut List<List<Mark>>,
    steps: &mut Steps<L>,
    mark: Mark,
) -> Result<(), ListFault>
    requires budget { budget < 10 ^ 18 }
    requires searched { IsSearched circuit.old knots.now part budget ports.now front.old }
    requires lookups { AreLookupsBeside (net_of open_behaviour circuit.old) knots.now part
        lookups.old }
    requires short { length front.old < length ports.now }
    requires plain { mark ≢ Mark.J }
    requires few { length rows.old ≤ 4096 }
    ensures circuit { OnOk result (circuit.new ≡ circuit.old) }
    ensures lookups { OnOk result (AreLookupsBeside (net_of open_behaviour circuit.old) knots.now
        part lookups.new) }
    ensures few { OnOk result (length rows.new ≤ 4096) }
    ensures front { OnOk result (front.new ≡ front.old) }
    ensures rows { let port = slice_index ports.now (length front.old) in
        let inside = in_knot knots.now.numbers part in
        (takes : Bool) → IsGate circuit.old port takes All
        → let net = net_of open_behaviour
        (put_at circuit.old port (gate_of takes (allowed_for mark)))
        in MatchResult result (λ _. Extends net inside ports.now rows.old rows.new)
        (IsExtendFault net inside ports.now rows.old part) }
{
    ends_stay();
    let place = front.len();
    let port = ports[place];
    allow(circuit, port, allowed_for(mark));
    front.push(mark)?;
    match follow(
        alloc, circuit, knots, part, ports, budget, lookups, front, rows, steps,
    ) {
        Err(fault) => Err(fault),
        Ok(()) => {
            front.truncate(place);
            allow(circuit, port, GateRows::All);
            Ok(())
        }
    }
}

/// Adds the lists that begin with the front, if any do.
#[cycle(walking)]
fn follow<L: Ledger>(
    alloc: Global,
    circuit: &mut Circuit<Open>,
    knots: &Knots,
    part: usize,
    ports: &[usize],
    budget: u64,
    lookups: &mut Lookups,
    front: &mut List<Mark>,
    rows: &mut List<List<Mark>>,
    steps: &mut Steps<L>,
) -> Result<(), ListFault>
    requires budget { budget < 10 ^ 18 }
    requires searched { IsSearched circuit.old knots.now part budget ports.now front.old }
    requires lookups { AreLookupsBeside (net_of open_behaviour circuit.old) knots.now part
        lookups.old }
    requires few { length rows.old ≤ 4096 }
    ensures circuit { OnOk result (circuit.new ≡ circuit.old) }
    ensures lookups { OnOk result (AreLookupsBeside (net_of open_behaviour circuit.old) knots.now
        part lookups.new) }
    ensures few { OnOk result (length rows.new ≤ 4096) }
    ensures front { OnOk result (front.new ≡ front.old) }
    ensures rows { let net = net_of open_behaviour circuit.old in
        let inside = in_knot knots.now.numbers part in
        MatchResult result (λ _. Extends net inside ports.now rows.old rows.new)
        (IsExtendFault net inside ports.now rows.old part) }
{
    if meets(alloc, circuit, knots, part, budget, lookups, steps)? {
        extend(
            alloc, circuit, knots, part, ports, budget, lookups, front, rows, steps,
        )
    } else {
        Ok(())
    }
}
