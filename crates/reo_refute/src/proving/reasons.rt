//! Why a value has no support: what is gone at the other joints of a side.
use crate::proving::kinds::{ALL, kind_of, kinds_with, live_kinds};
use reo_joint_values::JointValue;
use reo_net_base::Primitive;
use reo_refute_live::{Column, Judged, LiveAt};
use reo_values::{List, NoMemory};

/// Kinds of which no value is live at a joint, and that this is what a line rests on.
#[derive(Clone, Copy)]
pub(crate) struct Reason {
    pub(crate) joint: usize,
    pub(crate) kinds: u8,
}

/// A value at a joint, and what is live: the rows of a side that it could stand with fail.
#[derive(Drop)]
struct Failing<'a> {
    columns: &'a [Column],
    live: &'a [LiveAt],
    joint: usize,
    kind: u8,
}

/// The kinds that could stand where a row meets a column.
fn kinds_at(column: &Column, row: usize) -> u8 {
    match column.marks.get(row) {
        Some(mark) => kinds_with(*mark, column.gives),
        None => 0,
    }
}

/// Whether a row can have the value at its joint.
fn has_kind(failing: &Failing<'_>, row: usize) -> bool {
    for index in 0..failing.columns.len() {
        let column = &failing.columns[index];
        if column.joint == failing.joint && kinds_at(column, row) & failing.kind == 0 {
            return false;
        }
    }
    true
}

/// The kinds that a row could have at a column, none of which is live, if that is so.
fn reason_at(failing: &Failing<'_>, row: usize, column: &Column) -> Option<Reason> {
    if column.joint == failing.joint || column.joint >= failing.live.len() {
        return None;
    }
    let kinds = kinds_at(column, row);
    if kinds & live_kinds(&failing.live[column.joint]) == 0 {
        Some(Reason {
            joint: column.joint,
            kinds,
        })
    } else {
        None
    }
}

/// The first column at which a row fails.
fn first_reason(failing: &Failing<'_>, row: usize) -> Option<Reason> {
    for index in 0..failing.columns.len() {
        if let Some(reason) = reason_at(failing, row, &failing.columns[index]) {
            return Some(reason);
        }
    }
    None
}

/// Adds that all kinds at all joints of a side are what a line rests on.
fn add_all(failing: &Failing<'_>, reasons: &mut List<Reason>) -> Result<(), NoMemory> {
    for index in 0..failing.columns.len() {
        reasons.push(Reason {
            joint: failing.columns[index].joint,
            kinds: ALL,
        })?;
    }
    Ok(())
}

/// Whether this is the reason that was added last.
fn is_last(reasons: &List<Reason>, reason: Reason) -> bool {
    match reasons.as_slice().last() {
        Some(last) => last.joint == reason.joint && last.kinds == reason.kinds,
        None => false,
    }
}

/// Adds why a row fails.
fn add_for(failing: &Failing<'_>, row: usize, reasons: &mut List<Reason>) -> Result<(), NoMemory> {
    match first_reason(failing, row) {
        None => add_all(failing, reasons),
        Some(reason) => {
            if is_last(reasons, reason) {
                Ok(())
            } else {
                reasons.push(reason)
            }
        }
    }
}

/// Adds why a value has no support at a side.
pub(crate) fn add_reasons<P: Primitive>(
    judged: &Judged<'_, P>,
    live: &[LiveAt],
    joint: usize,
    value: JointValue,
    side: usize,
    reasons: &mut List<Reason>,
) -> Result<(), NoMemory> {
    if side >= judged.tables.len() || side >= judged.allowed.agreeing.len() {
        return Ok(());
    }
    let failing = Failing {
        columns: judged.tables.at(side).as_slice(),
        live,
        joint,
        kind: kind_of(value),
    };
    let rows = judged.allowed.rows(side);
    for row in 0..rows.len() {
        if rows[row] != 0 && has_kind(&failing, row) {
            add_for(&failing, row, reasons)?;
        }
    }
    Ok(())
}
