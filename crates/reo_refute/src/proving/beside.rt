//! The line that is next by what lies nearest. Where to look is guessed: a line is found only where
//! it leads on, and where none lies near, all joints are looked at.
ghost use Rattle.std.specs.Prelude.{◌≡◌, ◌<◌, ℕ, [], IfOk, MatchOption, length};
ghost use Rattle.reo_net_base.specs.Net.{net_of};
ghost use Rattle.reo_joint_values.specs.Values.{AtSide};
ghost use Rattle.reo_refute_base.specs.Live.{live_at};
ghost use Rattle.reo_refute_base.specs.measure.Owed.{AreTwo};
ghost use Rattle.reo_refute_live.specs.Judged.{IsJudged, allowed_in};
ghost use Rattle.reo_refute_live.specs.support.Families.{family_of};
ghost use Rattle.reo_refute_live.specs.OpenBranch.{IsOpen, AreSmall};
ghost use Rattle.reo_refute.specs.next.Next.{IsNextLine, MayLead};

use crate::next::{after, has_two, line_at_side, next_line};
use crate::proving::outward::{Glance, Outward};
use reo_net_base::Primitive;
use reo_net_circuit::Circuit;
use reo_refute_base::LogLine;
use reo_refute_live::{Column, Judged, OpenBranch};
use reo_side_tables::{giver_side, taker_side};
use reo_values::{List, NoMemory, Value};

/// The side of the giver of a joint, or of its taker.
fn side_at<P: Primitive>(circuit: &Circuit<P>, joint: usize, gives: bool) -> usize
    requires { joint < length circuit.now.joints }
    ensures { AtSide (net_of P.behaviour circuit.now) joint result }
{
    if gives {
        giver_side(circuit, joint)
    } else {
        taker_side(circuit, joint)
    }
}

/// The line of a value of a joint, of those from a place on, that may go at the giver's or at the
/// taker's side of it, if there is one.
fn line_from<P: Primitive>(
    judged: &Judged<'_, P>,
    live: &OpenBranch,
    joint: usize,
    gives: bool,
    from: usize,
    rows: &mut Vec<u8>,
) -> Result<Option<LogLine>, NoMemory>
    requires judged { IsJudged (net_of P.behaviour judged.now.circuit.now) judged.now }
    requires open { IsOpen judged.now.lists.now live.now }
    ensures { let net = net_of P.behaviour judged.now.circuit.now in
        IfOk result (MayLead net judged.now.lists.now (allowed_in net judged.now)
        (family_of live.now.table)) }
{
    if joint >= judged.circuit.joint_count() {
        return Ok(None);
    }
    let side = side_at(judged.circuit, joint, gives);
    line_at_side(judged, live, joint, side, from, rows)
}

/// The number of the first column at a joint, or 0 where none is.
fn first_at(columns: &[Column], joint: usize) -> usize
    ensures { 0 < length columns.now → result < length columns.now }
{
    for index in 0..columns.len() {
        if columns[index].joint == joint {
            return index;
        }
    }
    0
}

/// The place of a number, where so many places are counted on from one, and the first comes after
/// the last.
fn counted(first: usize, number: usize, count: usize) -> usize
    requires first { first < count }
    requires number { number < count }
    ensures { result < count }
{
    let left = count - first;
    if number < left {
        first + number
    } else {
        number - left
    }
}

/// The line of a value that may go at a side, if there is one where it is still to be looked at.
fn line_beside<P: Primitive>(
    judged: &Judged<'_, P>,
    live: &OpenBranch,
    outward: &mut Outward,
    look: Glance,
    rows: &mut Vec<u8>,
) -> Result<Option<LogLine>, NoMemory>
    requires judged { IsJudged (net_of P.behaviour judged.now.circuit.now) judged.now }
    requires open { IsOpen judged.now.lists.now live.now }
    ensures { let net = net_of P.behaviour judged.now.circuit.now in
        IfOk result (MayLead net judged.now.lists.now (allowed_in net judged.now)
        (family_of live.now.table)) }
{
    if look.side >= judged.tables.len() {
        return Ok(None);
    }
    let columns = judged.tables.at(look.side).as_slice();
    let first = first_at(columns, look.joint);
    let mut place = look.place;
    for number in look.ends..columns.len() {
        let index = counted(first, number, columns.len());
        let column = &columns[index];
        match line_from(judged, live, column.joint, column.gives, place, rows)? {
            Some(line) => {
                outward.stay(number, after(judged.lists, line));
                return Ok(Some(line));
            }
            None => place = 0,
        }
    }
    Ok(None)
}

/// The line of a value that may go at a side that waits, if there is one.
fn line_outward<P: Primitive>(
    judged: &Judged<'_, P>,
    live: &OpenBranch,
    outward: &mut Outward,
    rows: &mut Vec<u8>,
) -> Result<Option<LogLine>, NoMemory>
    requires judged { IsJudged (net_of P.behaviour judged.now.circuit.now) judged.now }
    requires open { IsOpen judged.now.lists.now live.now }
    ensures { let net = net_of P.behaviour judged.now.circuit.now in
        IfOk result (MayLead net judged.now.lists.now (allowed_in net judged.now)
        (family_of live.now.table)) }
{
    for _look in 0..judged.tables.len() {
        let Some(look) = outward.look() else {
            return Ok(None);
        };
        match line_beside(judged, live, outward, look, rows)? {
            Some(line) => return Ok(Some(line)),
            None => outward.pass(judged.circuit, judged.tables, look.side)?,
        }
    }
    Ok(None)
}

/// The joint at which a value went last, if no other is live there.
fn emptied(lists: &[List<Value>], live: &OpenBranch, outward: &Outward) -> Option<usize>
    requires { IsOpen lists.now live.now }
    ensures { MatchOption result (Unit {0}) (λ j. (j < length lists.now)
        × (live_at lists.now (family_of live.now.table) j ≡ [])) }
{
    match outward.touched() {
        None => None,
        Some(joint) => {
            if joint < lists.len() && !live.has_live(lists, joint) {
                Some(joint)
            } else {
                None
            }
        }
    }
}

/// The first joint that closes a loop and at which two values are live, if there is one.
fn first_loop(lists: &[List<Value>], live: &OpenBranch, loops: &[usize]) -> Option<usize>
    requires open { IsOpen lists.now live.now }
    requires small { AreSmall lists.now }
    ensures { MatchOption result (Unit {0}) (λ j. (j < length lists.now)
        × AreTwo lists.now (family_of live.now.table) j) }
{
    for index in 0..loops.len() {
        let joint = loops[index];
        if joint < lists.len() && has_two(lists, live, joint) {
            return Some(joint);
        }
    }
    None
}

/// The next line of a branch, as `next_line` has it, but one near to where values went last, if
/// there is one.
pub(crate) fn line_near<P: Primitive>(
    judged: &Judged<'_, P>,
    live: &OpenBranch,
    outward: &mut Outward,
    rows: &mut Vec<u8>,
) -> Result<Option<LogLine>, NoMemory>
    requires judged { IsJudged (net_of P.behaviour judged.now.circuit.now) judged.now }
    requires open { IsOpen judged.now.lists.now live.now }
    ensures { let net = net_of P.behaviour judged.now.circuit.now in
        IfOk result (IsNextLine net judged.now.lists.now (allowed_in net judged.now)
        (family_of live.now.table)) }
{
    if let Some(joint) = emptied(judged.lists, live, outward) {
        return Ok(Some(LogLine::Empty(joint)));
    }
    if let Some(line) = line_outward(judged, live, outward, rows)? {
        return Ok(Some(line));
    }
    if let Some(joint) = first_loop(judged.lists, live, outward.loops()) {
        return Ok(Some(LogLine::Split(joint)));
    }
    next_line(judged, live, rows)
}
