//! Gates: what stands where a circuit meets its surroundings.
ghost use Rattle.std.specs.Prelude.{◌≡◌, ◌<◌};
ghost use Rattle.reo_net_base.specs.Rows.{row_count, mark_in, class_in};
ghost use Rattle.reo_open.specs.Gates.{gate_rows};

use reo_net_base::Mark;

/// Which rows a gate has, beside its jam row.
#[derive(Clone, Copy, Debug, PartialEq, Eq)]
pub enum GateRows {
    /// The next three, in this order.
    All,
    /// Flow.
    Flow,
    /// No flow, for which the surroundings give a reason.
    Given,
    /// No flow, for which the surroundings require a reason.
    Required,
}

/// Where a circuit meets its surroundings: a primitive with one end.
#[derive(Clone, Copy, Debug, PartialEq, Eq)]
pub struct Gate {
    /// Whether items go out of the circuit here: at its end they enter the gate.
    pub takes: bool,
    pub allowed: GateRows,
}

impl GateRows {
    /// How many rows there are, the jam row counted.
    pub(crate) fn count(self) -> usize
        ensures { result ≡ row_count (gate_rows self) }
    {
        match self {
            GateRows::All => 4,
            _ => 2,
        }
    }

    /// What a row says.
    pub(crate) fn mark(self, row: usize) -> Mark
        ensures { result ≡ mark_in (gate_rows self) row 0 }
    {
        match (self, row) {
            (GateRows::All, 0) | (GateRows::Flow, 0) => Mark::F,
            (GateRows::All, 1) | (GateRows::Given, 0) => Mark::G,
            (GateRows::All, 2) | (GateRows::Required, 0) => Mark::R,
            _ => Mark::J,
        }
    }

    /// The class of a row.
    pub(crate) fn class(self, row: usize) -> usize
        requires { row < row_count (gate_rows self) }
        ensures { result ≡ class_in (gate_rows self) row }
    {
        match (self, row) {
            (_, 0) => 0,
            (GateRows::All, 3) => 2,
            _ => 1,
        }
    }
}
