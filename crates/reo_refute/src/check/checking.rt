//! Checking logs.
ghost use Rattle.std.specs.Prelude.{◌≡◌, ◌≤◌, ◌<◌, ◌^◌, MatchResult, IfOk};
ghost use Rattle.reo_net_base.specs.Net.{net_of};
ghost use Rattle.reo_refute_base.specs.faults.Faults.{IsProof, IsProofFault};
ghost use Rattle.reo_refute.specs.check.Judging.{IsJudged, fault_of, IsFirstRows};

use crate::check::colouring::check_rows;
use crate::check::lines::Lines;
use crate::check::parts::check_parts;
use crate::check::stop::LogStop;
use crate::footing::Footing;
use reo_net_base::Primitive;
use reo_net_circuit::{Circuit, ends_of};
use reo_refute_base::{ProofFault, items_are_listed, right_logs_refute};
use reo_refute_live::tables_of;
use reo_refute_parts::{item_lists, key_places};
use std::alloc::Global;

/// The fault for which checking stops.
fn fault_of(stop: LogStop) -> ProofFault
    ensures { result ≡ fault_of stop }
{
    match stop {
        LogStop::Colouring(wrong) => ProofFault::Colouring(wrong),
        LogStop::Wide => ProofFault::Wide,
        LogStop::Line(line) => ProofFault::Line { line },
        LogStop::NoMemory => ProofFault::NoMemory,
    }
}

/// Judges rows and a log.
fn judge<P: Primitive>(
    alloc: Global,
    circuit: &Circuit<P>,
    turn: u64,
    rows: &[u32],
    log: &[u8],
) -> Result<(), LogStop>
    ensures { let net = net_of P.behaviour circuit.now in
        IsJudged net turn rows.now log.now result }
{
    circuit.known();
    items_are_listed();
    let ends = ends_of(alloc, circuit)?;
    check_rows(alloc, circuit, &ends, rows)?;
    match item_lists(alloc, circuit, &ends)? {
        None => Err(LogStop::Wide),
        Some(lists) => {
            let tables = tables_of(alloc, circuit)?;
            let places = key_places(alloc, circuit)?;
            let mut lines = Lines::new(log);
            let round = Footing {
                alloc,
                circuit,
                turn,
                given: rows,
                places: places.as_slice(),
                lists: lists.as_slice(),
                tables: &tables,
            };
            check_parts(&round, &mut lines)
        }
    }
}

/// Checks that a log shows that no colouring of a circuit in its present state stands before the
/// rows, in the round of this number. Rows and log may be any.
///
/// # Errors
///
/// The first that holds: `Colouring` with what is wrong first, where the rows with the items that
/// they determine are no colouring; `Wide` where more than 256 items can stand at some joint;
/// `Line` with the first line that is not right where it stands, or with the line after the last
/// where the log ends early. `NoMemory` is out of memory.
pub fn check_proof<P: Primitive>(
    alloc: Global,
    circuit: &Circuit<P>,
    turn: u64,
    rows: &[u32],
    log: &[u8],
) -> Result<(), ProofFault>
    requires from_one { 1 ≤ turn }
    requires small { turn < 2 ^ 63 }
    ensures exact { let net = net_of P.behaviour circuit.now in
        MatchResult result (λ _. IsProof net turn rows.now log.now)
        (IsProofFault net turn rows.now log.now) }
    ensures first { let net = net_of P.behaviour circuit.now in
        IfOk result (λ _. IsFirstRows net turn rows.now) }
{
    circuit.known();
    right_logs_refute();
    let _order = circuit.order();
    match judge(alloc, circuit, turn, rows, log) {
        Ok(()) => Ok(()),
        Err(stop) => Err(fault_of(stop)),
    }
}
