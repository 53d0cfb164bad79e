//! The tables of mergers and replicators.
ghost use Rattle.std.specs.Prelude.{◌≡◌};
ghost use Rattle.reo_net_base.specs.Branching.{inputs_and_output, beginning, merger_mark, merger_class, merger_group, merger_common, merger_apart, replicator_mark, replicator_class, replicator_group, replicator_common, replicator_apart};

use crate::branches::Branches;
use crate::mark::Mark;

/// The marks of a merger's inputs and of its output, which is the end after them.
fn inputs_and_output(inputs: usize, input: Mark, output: Mark, end: usize) -> Mark
    ensures { result ≡ inputs_and_output inputs input output end }
{
    if end < inputs { input } else { output }
}

/// A merger's marks. A row below the number of inputs has flow at its input and at the output;
/// then come the output that gives no reason, and the inputs that give none.
pub(crate) fn merger_mark(branches: Branches, row: usize, end: usize) -> Mark
    ensures { result ≡ merger_mark branches.count row end }
{
    let inputs = branches.count;
    if row < inputs {
        let input = if end == row { Mark::F } else { Mark::G };
        inputs_and_output(inputs, input, Mark::F, end)
    } else if row == inputs {
        inputs_and_output(inputs, Mark::G, Mark::R, end)
    } else if row == inputs + 1 {
        inputs_and_output(inputs, Mark::R, Mark::G, end)
    } else {
        Mark::J
    }
}

/// The input with which a merger begins in the round of this number.
pub fn beginning(branches: Branches, turn: u64) -> usize
    ensures { result ≡ beginning branches.count turn }
{
    (turn.saturating_sub(1) % (branches.count as u64)) as usize
}

/// A merger's classes: its inputs are tried in turn, from the one with which it begins.
pub(crate) fn merger_class(branches: Branches, row: usize, turn: u64) -> usize
    ensures { result ≡ merger_class branches.count row turn }
{
    let inputs = branches.count;
    if row < inputs {
        (row + inputs - beginning(branches, turn)) % inputs
    } else if row < inputs + 2 {
        inputs
    } else {
        inputs + 1
    }
}

/// A merger's groups: the rows by which an input flows are one.
pub(crate) fn merger_group(branches: Branches, row: usize) -> usize
    ensures { result ≡ merger_group branches.count row }
{
    let inputs = branches.count;
    if row < inputs {
        0
    } else if row == inputs {
        1
    } else if row == inputs + 1 {
        2
    } else {
        3
    }
}

/// What the rows of a merger's group say, but for the input that flows.
pub(crate) fn merger_common(branches: Branches, group: usize, end: usize) -> Mark
    ensures { result ≡ merger_common branches.count group end }
{
    match group {
        0 => inputs_and_output(branches.count, Mark::G, Mark::F, end),
        1 => inputs_and_output(branches.count, Mark::G, Mark::R, end),
        2 => inputs_and_output(branches.count, Mark::R, Mark::G, end),
        _ => Mark::J,
    }
}

/// The input that flows by a row of a merger.
pub(crate) fn merger_apart(branches: Branches, row: usize) -> Option<usize>
    ensures { result ≡ merger_apart branches.count row }
{
    if row < branches.count {
        Some(row)
    } else {
        None
    }
}

/// A replicator's marks: flow at each end, then the input that gives no reason, then each output
/// that gives none. The outputs are the ends after the input.
pub(crate) fn replicator_mark(branches: Branches, row: usize, end: usize) -> Mark
    ensures { result ≡ replicator_mark branches.count row end }
{
    if row == 0 {
        Mark::F
    } else if row == 1 {
        if end == 0 { Mark::R } else { Mark::G }
    } else if row < branches.count + 2 {
        if end == row - 1 { Mark::R } else { Mark::G }
    } else {
        Mark::J
    }
}

/// A replicator's classes.
pub(crate) fn replicator_class(branches: Branches, row: usize) -> usize
    ensures { result ≡ replicator_class branches.count row }
{
    if row == 0 {
        0
    } else if row < branches.count + 2 {
        1
    } else {
        2
    }
}

/// A replicator's groups: the rows by which an output gives no reason are one.
pub(crate) fn replicator_group(branches: Branches, row: usize) -> usize
    ensures { result ≡ replicator_group branches.count row }
{
    if row < 2 {
        row
    } else if row < branches.count + 2 {
        2
    } else {
        3
    }
}

/// What the rows of a replicator's group say, but for the output that gives no reason.
pub(crate) fn replicator_common(group: usize, end: usize) -> Mark
    ensures { result ≡ replicator_common group end }
{
    match group {
        0 => Mark::F,
        1 => if end == 0 { Mark::R } else { Mark::G },
        2 => Mark::G,
        _ => Mark::J,
    }
}

/// The output that gives no reason by a row of a replicator.
pub(crate) fn replicator_apart(branches: Branches, row: usize) -> Option<usize>
    ensures { result ≡ replicator_apart branches.count row }
{
    if 2 <= row && row < branches.count + 2 {
        Some(row - 1)
    } else {
        None
    }
}
