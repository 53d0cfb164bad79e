//! Taking away what is not used at a side from a joint there.
ghost use Rattle.std.specs.Prelude.{◌≡◌, ◌⊎◌, ◌↔◌, ◌<◌, ◌≤◌, ◌+◌, ℕ, true, false, cond, length, slice_index_or, []};
ghost use Rattle.reo_net_base.specs.Net.{net_of, all_sides};
ghost use Rattle.reo_joint_values.specs.Values.{Family};
ghost use Rattle.reo_joint_values.specs.Supported.{IsThinned};
ghost use Rattle.reo_side_tables.specs.Boards.{AreBoards};
ghost use Rattle.reo_side_tables.specs.Marks.{IsJointOf};
ghost use Rattle.reo_rows.specs.RowFlags.{count_set};
ghost use Rattle.reo_rows.specs.Groups.{AreNoted};
ghost use Rattle.reo_rows.specs.Rows.{AreTables, IsSifted, IsSeen};
ghost use Rattle.reo_rows.specs.Basis.{IsReadyOn};
ghost use Rattle.reo_rows.specs.Sets.{family_of, names_of};
ghost use Rattle.reo_propagate.specs.Narrow.{IsCut, IsThinnedTo};

use reo_net_base::Primitive;
use reo_rows::{Basis, FLOWS, RowFlags, Rows, is_used, used_marks};

/// Whether a joint lost a value, and whether one with flow.
#[derive(Clone, Copy, Debug, PartialEq, Eq)]
pub struct Loss {
    pub some: bool,
    pub flow: bool,
}

impl Loss {
    /// Nothing was lost.
    pub fn none() -> Loss
        ensures { result ≡ record { some = false; flow = false } }
    {
        Loss {
            some: false,
            flow: false,
        }
    }

    /// One value more was lost, by its place.
    pub fn with(self, code: usize) -> Loss
        ensures some { result.some ≡ true }
        ensures flow { (result.flow ≡ true) ↔ ((self.flow ≡ true) ⊎ (4 ≤ code)) }
    {
        Loss {
            some: true,
            flow: self.flow || code >= FLOWS,
        }
    }
}

/// Takes the values of a joint away that are not used at a side. This takes no memory.
pub fn thin<P: Primitive>(
    basis: &Basis<'_, P>,
    alive: &mut RowFlags,
    rows: &Rows,
    side: usize,
    joint: usize,
) -> Loss
    requires ready { let net = net_of P.behaviour basis.now.circuit.now in
        IsReadyOn net basis.now alive.old }
    requires tables { let net = net_of P.behaviour basis.now.circuit.now in
        AreTables net basis.now.items.now rows.now }
    requires side { let net = net_of P.behaviour basis.now.circuit.now in
        side < length (all_sides net.primitives) }
    requires joint { IsJointOf (net_of P.behaviour basis.now.circuit.now) side joint }
    requires noted { let net = net_of P.behaviour basis.now.circuit.now in
        AreNoted net rows.now.live side rows.now.notes }
    ensures cut { IsCut joint alive.old alive.new result }
    ensures fewer { count_set alive.new + cond result.some 1 0 ≤ count_set alive.old }
    ensures thinned { let net = net_of P.behaviour basis.now.circuit.now in
        (start : Family) → IsSifted net (names_of basis.now.items.now) start side rows.now
        → IsSeen net (names_of basis.now.items.now) start side rows.now
        → IsThinned net (names_of basis.now.items.now) side start (family_of alive.old)
        → IsThinnedTo net (names_of basis.now.items.now) side joint
        (length (slice_index_or alive.old joint [])) start alive.new }
{
    let marks = used_marks(basis, rows, side, joint);
    let mut loss = Loss::none();
    for code in 0..alive.width(joint) {
        if alive.is_set(joint, code) && !is_used(basis, rows, side, joint, code, marks) {
            alive.clear(joint, code);
            loss = loss.with(code);
        }
    }
    loss
}
