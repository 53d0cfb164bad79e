//! Values with flow that a row gives.
ghost use Rattle.std.specs.Prelude.{◌↔◌, ◌<◌, ◌≤◌, ◌+◌, IsTrue, length, option_copied, slice_index_or, []};
ghost use Rattle.reo_net_base.specs.Net.{net_of};
ghost use Rattle.reo_joint_values.specs.Works.{IsGivenAs};
ghost use Rattle.reo_rows.specs.Flowing.{IsFlowing, GivesThere, names_in};
ghost use Rattle.reo_rows.specs.Sets.{value_of};

use crate::flowing::Flowing;
use crate::marks::FLOWS;
use reo_net_base::Primitive;
use reo_side_tables::gives_item;
use reo_values::Value;

/// Whether a value with flow of a joint, by its place, is what a row gives there for what it takes.
pub(crate) fn gives_value<P: Primitive>(
    flowing: &Flowing<'_, P>,
    joint: usize,
    taken: Option<&Value>,
    code: usize,
) -> bool
    requires flowing { IsFlowing (net_of P.behaviour flowing.now.basis.now.circuit.now)
        flowing.now }
    requires gives { let net = net_of P.behaviour flowing.now.basis.now.circuit.now in
        GivesThere net flowing.now joint }
    requires flows { 4 ≤ code }
    requires code { code < length (slice_index_or flowing.now.basis.now.items.now joint []) + 4 }
    ensures { let net = net_of P.behaviour flowing.now.basis.now.circuit.now in
        IsTrue result ↔ IsGivenAs net (names_in flowing.now) flowing.now.row joint
        (option_copied taken.entry) (value_of code) }
{
    let item = flowing.basis.items[joint].at(code - FLOWS);
    gives_item(
        flowing.basis.circuit,
        flowing.side,
        flowing.row,
        joint,
        taken,
        item,
    )
}
