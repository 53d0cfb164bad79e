//! Whether a value has support at a side.
ghost use Rattle.std.specs.Prelude.{◌≡◌, ◌≢◌, ◌↔◌, ◌<◌, IsTrue, IfOk, OnOk, true, length, slice_index};
ghost use Rattle.reo_net_base.specs.Net.{net_of};
ghost use Rattle.reo_joint_values.specs.Values.{AtSide};
ghost use Rattle.reo_refute_base.specs.Items.{numbered};
ghost use Rattle.reo_refute_base.specs.Live.{HasSupport};
ghost use Rattle.reo_refute_parts.specs.places.AllowedRows.{AreMarked};
ghost use Rattle.reo_refute_live.specs.Judged.{IsJudged, allowed_in};
ghost use Rattle.reo_refute_live.specs.support.Asked.{IsAsked, held_in};
ghost use Rattle.reo_refute_live.specs.support.Columns.{HasBytes};
ghost use Rattle.reo_refute_live.specs.support.Families.{family_of, AreLive};
ghost use Rattle.reo_refute_live.specs.support.Flows.{MarksStand, StandingRow};

use crate::judged::Judged;
use crate::support::asked::Asked;
use crate::support::flows::flows_stand;
use crate::support::live::LiveAt;
use crate::support::marks::marks_left;
use reo_joint_values::JointValue;
use reo_lanes::keep_rows;
use reo_net_base::Primitive;
use reo_refute_base::support_is_by_rows;
use reo_values::NoMemory;

/// Fills a buffer with bytes.
fn copy_bytes(bytes: &[u8], copy: &mut Vec<u8>) -> Result<(), NoMemory>
    ensures { OnOk result (copy.new.items ≡ bytes.now) }
{
    copy.clear();
    match copy.extend_from_slice(bytes) {
        Ok(()) => Ok(()),
        Err(_) => Err(NoMemory),
    }
}

/// Clears the bytes of the rows that at some column have the mark of no live value.
fn keep_fitting<P: Primitive>(asked: &Asked<'_, P>, rows: &mut [u8])
    requires ready { IsAsked (net_of P.behaviour asked.now.circuit.now) asked.now }
    requires live { family_of asked.now.live.now asked.now.held asked.now.value ≡ true }
    requires rows { HasBytes (net_of P.behaviour asked.now.circuit.now) asked.now.side rows.old }
    ensures { let net = net_of P.behaviour asked.now.circuit.now in
        AreMarked (length rows.old) (λ row. (slice_index rows.old row ≢ 0)
        × MarksStand net (held_in asked.now) row asked.now.columns.now) rows.new }
{
    asked.circuit.known();
    let columns = asked.columns;
    for index in 0..columns.len() {
        let column = &columns[index];
        let marks = marks_left(
            asked.live,
            asked.held,
            asked.value,
            column.joint,
            column.gives,
        );
        keep_rows(column.marks.as_slice(), marks.byte(), rows);
    }
}

/// Whether some row whose byte is not 0 takes in and gives with flow what may stand.
fn some_stands<P: Primitive>(asked: &Asked<'_, P>, rows: &[u8]) -> bool
    requires ready { IsAsked (net_of P.behaviour asked.now.circuit.now) asked.now }
    requires rows { HasBytes (net_of P.behaviour asked.now.circuit.now) asked.now.side rows.now }
    ensures { let net = net_of P.behaviour asked.now.circuit.now in
        IsTrue result ↔ StandingRow net (numbered asked.now.lists.now) (held_in asked.now)
        asked.now.side asked.now.columns.now rows.now }
{
    for row in 0..rows.len() {
        if rows[row] != 0 && flows_stand(asked, row) {
            return true;
        }
    }
    false
}

/// Whether a live value at a joint has support at a side: some row of the side that is allowed fits
/// with it, and with live values at the side's other joints. What the buffer held does not matter.
/// `NoMemory` is out of memory.
pub fn has_support<P: Primitive>(
    judged: &Judged<'_, P>,
    live: &[LiveAt],
    joint: usize,
    value: JointValue,
    side: usize,
    rows: &mut Vec<u8>,
) -> Result<bool, NoMemory>
    requires judged { IsJudged (net_of P.behaviour judged.now.circuit.now) judged.now }
    requires live { AreLive judged.now.lists.now live.now }
    requires joint { joint < length judged.now.circuit.now.joints }
    requires at { AtSide (net_of P.behaviour judged.now.circuit.now) joint side }
    requires is_live { family_of live.now joint value ≡ true }
    ensures { let net = net_of P.behaviour judged.now.circuit.now in
        IfOk result (λ supported. IsTrue supported ↔ HasSupport net (numbered judged.now.lists.now)
        (allowed_in net judged.now) (family_of live.now) side joint value) }
{
    judged.circuit.known();
    support_is_by_rows();
    let asked = Asked {
        circuit: judged.circuit,
        lists: judged.lists,
        columns: judged.tables.at(side).as_slice(),
        live,
        held: joint,
        value,
        side,
    };
    copy_bytes(judged.allowed.rows(side), rows)?;
    keep_fitting(&asked, rows);
    Ok(some_stands(&asked, rows))
}
