//! How runs come out.
ghost use Rattle.std.specs.Prelude.{◌≡◌, ◌<◌, ◌≤◌, ◌+◌, ◌^◌, length};
ghost use Rattle.std.specs.List.{count_by};
ghost use Rattle.reo_runs.specs.Written.{goes, way_at, is_in, is_out};
ghost use Rattle.reo_runner.specs.Outcome.{tally_of};

use reo_net_base::{Move, Ports, Way};

/// How far a run may go.
#[derive(Clone, Copy, Debug, PartialEq, Eq)]
pub struct Limits {
    /// The greatest weight of a part that a round may be planned for: 1 to 10^9.
    pub budget: u64,
    /// How many rounds may be made: 1 to 10^9.
    pub rounds: u64,
}

/// Why a run ended.
#[derive(Clone, Copy, Debug, PartialEq, Eq)]
pub enum End2 {
    /// Every component is done.
    Done,
    /// The last round was idle, and no component counted in it.
    Stuck,
    /// As many rounds were made as are allowed.
    Limit,
    /// The weight of this part is above the budget in the round that stood next.
    Spent { knot: u64, weight: u64 },
    /// At a joint of this part too many items can stand in the round that stood next.
    Wide { knot: u64 },
    /// The sink failed, and its count of faults rose.
    WriteFault,
    /// Out of memory.
    NoMemory,
}

/// What a run has come to.
#[derive(Clone, Copy, Debug, PartialEq, Eq)]
pub struct Outcome {
    pub end: End2,
    /// How many rounds were made.
    pub rounds: u64,
    /// How many items moved at `in` ports in these rounds.
    pub written: u64,
    /// How many items moved at `out` ports in these rounds.
    pub delivered: u64,
}

/// What has moved so far.
#[derive(Clone, Copy)]
pub(crate) struct Tally {
    pub rounds: u64,
    pub written: u64,
    pub delivered: u64,
}

/// Whether items go into the circuit at a port of this way.
fn is_in(way: Way) -> bool
    ensures { result ≡ is_in way }
{
    matches!(way, Way::In)
}

/// The way of a port.
fn way_at(ports: &Ports, port: usize) -> Way
    ensures { result ≡ way_at ports.now.list port }
{
    match ports.list.get(port) {
        Some(port) => port.way,
        None => Way::In,
    }
}

/// How many items moved at `in` ports.
fn count_in(ports: &Ports, moves: &[Move]) -> u64
    ensures { result ≡ count_by (goes is_in ports.now.list) moves.now }
{
    let mut count = 0;
    for one in moves {
        if is_in(way_at(ports, one.port)) {
            count += 1;
        }
    }
    count
}

impl Tally {
    /// Nothing yet.
    pub(crate) fn new() -> Self
        ensures rounds { result.rounds ≡ 0 }
        ensures written { result.written ≡ 0 }
        ensures delivered { result.delivered ≡ 0 }
    {
        Tally {
            rounds: 0,
            written: 0,
            delivered: 0,
        }
    }

    /// After one round more, with these moves.
    pub(crate) fn after(self, ports: &Ports, moves: &[Move]) -> Self
        requires rounds { self.rounds < 2 ^ 63 }
        requires written { self.written < 2 ^ 63 }
        requires delivered { self.delivered < 2 ^ 63 }
        requires few { length moves.now < 2 ^ 32 }
        ensures rounds { result.rounds ≡ self.rounds + 1 }
        ensures written { let more = count_by (goes is_in ports.now.list) moves.now in
            result.written ≡ self.written + more }
        ensures delivered { let more = count_by (goes is_out ports.now.list) moves.now in
            result.delivered ≡ self.delivered + more }
    {
        let written = count_in(ports, moves);
        let delivered = moves.len() as u64 - written;
        Tally {
            rounds: self.rounds + 1,
            written: self.written + written,
            delivered: self.delivered + delivered,
        }
    }

    /// The outcome with this end and these numbers.
    pub(crate) fn outcome(self, end: End2) -> Outcome
        ensures end { result.end ≡ end }
        ensures tally { tally_of result ≡ self }
    {
        Outcome {
            end,
            rounds: self.rounds,
            written: self.written,
            delivered: self.delivered,
        }
    }
}
