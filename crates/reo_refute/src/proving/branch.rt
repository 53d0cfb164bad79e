//! One branch of a log. Lines are found and noted until no branch is open; those that stay are
//! judged as any log is, and written where they are a branch by themselves, and else all lines are.
ghost use Rattle.std.specs.Prelude.{◌^◌, ◌≡◌, ◌≤◌, ◌<◌, ℕ, List, [], false, IfOk, OnOk, IsTrue, cond, length};
ghost use Rattle.reo_net_base.specs.Net.{net_of};
ghost use Rattle.reo_refute_live.specs.Judged.{IsJudged, allowed_in};
ghost use Rattle.reo_refute_live.specs.OpenBranch.{open_in, IsOpen, IsClosed};
ghost use Rattle.reo_refute.specs.proving.Making.{AreFew, NeverSettles, IsLineMade, IsBranchMade};

use crate::check::{Lines, LogStop, check_part};
use crate::proving::beside::line_near;
use crate::proving::draft::Draft;
use crate::proving::going::go_on;
use crate::proving::outward::Outward;
use crate::proving::scratch::Scratch;
use reo_net_base::Primitive;
use reo_refute_base::LogLine;
use reo_refute_live::{Column, Judged, OpenBranch};
use reo_refute_parts::put_line;
use reo_values::{Bytes, List, NoMemory};
use std::alloc::Global;

/// Notes a line that was found and followed, by where its text begins.
fn note<P: Primitive>(
    judged: &Judged<'_, P>,
    live: &OpenBranch,
    line: LogLine,
    text: usize,
    draft: &mut Draft,
    outward: &mut Outward,
) -> Result<(), NoMemory> {
    let split = live.splits.as_slice().last();
    match line {
        LogLine::Drop(joint, _, side) => {
            draft.add(judged, live, line, text, 0)?;
            outward.dropped(judged.circuit, joint, side)
        }
        LogLine::Split(joint) => {
            let branches = match split {
                Some(split) => split.values.len(),
                None => 0
            };
            draft.add(judged, live, line, text, branches)?;
            outward.held(judged.circuit, joint)
        }
        LogLine::Empty(_) => {
            draft.add(judged, live, line, text, 0)?;
            match split {
                Some(split) => outward.held(judged.circuit, split.joint),
                None => Ok(()),
            }
        }
        LogLine::At(_) => Ok(()),
    }
}

/// How many sides there are: fewer than 2^63.
fn count_sides(tables: &[List<Column>]) -> usize
    ensures count { result ≡ length tables.now }
    ensures small { result < 2 ^ 63 }
{
    tables.len()
}

/// Writes the next line of a branch behind those that were found: whether a branch is open behind
/// it.
fn put_next<P: Primitive>(
    alloc: Global,
    judged: &Judged<'_, P>,
    scratch: &mut Scratch,
) -> Result<bool, NoMemory>
    requires judged { IsJudged (net_of P.behaviour judged.now.circuit.now) judged.now }
    requires few { AreFew judged.now.lists.now }
    requires never { NeverSettles (net_of P.behaviour judged.now.circuit.now) judged.now.lists.now
        (allowed_in (net_of P.behaviour judged.now.circuit.now) judged.now) }
    requires open { IsOpen judged.now.lists.now scratch.old.live }
    ensures open { IfOk result
        (λ more. IsTrue more → IsOpen judged.now.lists.now scratch.new.live) }
    ensures closed { IfOk result
        (λ more. more ≡ false → IsClosed judged.now.lists.now scratch.new.live) }
    ensures made { let net = net_of P.behaviour judged.now.circuit.now in
        IfOk result (λ more. IsLineMade net judged.now.lists.now (allowed_in net judged.now)
        (open_in scratch.old.live) (cond more (open_in scratch.new.live) []) scratch.old.whole
        scratch.new.whole) }
{
    judged.circuit.known();
    let _sides = count_sides(judged.tables.as_slice());
    match line_near(
        judged,
        &scratch.live,
        &mut scratch.outward,
        &mut scratch.rows,
    )? {
        Some(line) => {
            let text = scratch.whole.len();
            put_line(alloc, &mut scratch.whole, line)?;
            let more = go_on(alloc, judged, &mut scratch.live, line)?;
            note(
                judged,
                &scratch.live,
                line,
                text,
                &mut scratch.draft,
                &mut scratch.outward,
            )?;
            Ok(more)
        }
        None => Ok(false),
    }
}

/// Finds a branch in which all values are live first, and writes all its lines.
fn put_whole<P: Primitive>(
    alloc: Global,
    judged: &Judged<'_, P>,
    scratch: &mut Scratch,
) -> Result<(), NoMemory>
    requires judged { IsJudged (net_of P.behaviour judged.now.circuit.now) judged.now }
    requires few { AreFew judged.now.lists.now }
    requires never { NeverSettles (net_of P.behaviour judged.now.circuit.now) judged.now.lists.now
        (allowed_in (net_of P.behaviour judged.now.circuit.now) judged.now) }
    requires closed { IsClosed judged.now.lists.now scratch.old.live }
    ensures closed { OnOk result (IsClosed judged.now.lists.now scratch.new.live) }
    ensures made { let net = net_of P.behaviour judged.now.circuit.now in
        OnOk result (IsBranchMade net judged.now.lists.now (allowed_in net judged.now) []
        scratch.new.whole) }
{
    scratch.live.restart(judged.lists);
    scratch.whole.clear();
    scratch.draft.clear();
    scratch.outward.begin(judged.tables, judged.allowed.side)?;
    let mut open = true;
    while open {
        open = put_next(alloc, judged, scratch)?;
    }
    Ok(())
}

/// Whether a text is a branch in which all values are live first, as the judge of logs has it.
fn is_branch<P: Primitive>(
    alloc: Global,
    judged: &Judged<'_, P>,
    live: &mut OpenBranch,
    text: &[u8],
    rows: &mut Vec<u8>,
) -> Result<bool, NoMemory>
    requires judged { IsJudged (net_of P.behaviour judged.now.circuit.now) judged.now }
    requires closed { IsClosed judged.now.lists.now live.old }
    ensures closed { IfOk result (λ _. IsClosed judged.now.lists.now live.new) }
    ensures made { let net = net_of P.behaviour judged.now.circuit.now in
        IfOk result (λ yes. IsTrue yes → IsBranchMade net judged.now.lists.now
        (allowed_in net judged.now) [] text.now) }
{
    let mut lines = Lines::new(text);
    match check_part(alloc, judged, live, &mut lines, rows) {
        Ok(()) => Ok(lines.left.is_done()),
        Err(LogStop::NoMemory) => Err(NoMemory),
        Err(_) => {
            *live = OpenBranch::new(alloc, judged.lists)?;
            Ok(false)
        }
    }
}

/// Writes a branch in which all values are live first.
pub(crate) fn put_branch<P: Primitive>(
    alloc: Global,
    judged: &Judged<'_, P>,
    scratch: &mut Scratch,
    out: &mut Bytes,
) -> Result<(), NoMemory>
    requires judged { IsJudged (net_of P.behaviour judged.now.circuit.now) judged.now }
    requires few { AreFew judged.now.lists.now }
    requires never { NeverSettles (net_of P.behaviour judged.now.circuit.now) judged.now.lists.now
        (allowed_in (net_of P.behaviour judged.now.circuit.now) judged.now) }
    requires closed { IsClosed judged.now.lists.now scratch.old.live }
    ensures closed { OnOk result (IsClosed judged.now.lists.now scratch.new.live) }
    ensures made { let net = net_of P.behaviour judged.now.circuit.now in
        OnOk result (IsBranchMade net judged.now.lists.now (allowed_in net judged.now) out.old
        out.new) }
{
    put_whole(alloc, judged, scratch)?;
    scratch.draft.shorten()?;
    scratch.short.clear();
    scratch
        .draft
        .put_kept(scratch.whole.as_slice(), &mut scratch.short)?;
    if is_branch(
        alloc,
        judged,
        &mut scratch.live,
        scratch.short.as_slice(),
        &mut scratch.rows,
    )? {
        out.append(scratch.short.as_slice())
    } else {
        out.append(scratch.whole.as_slice())
    }
}
