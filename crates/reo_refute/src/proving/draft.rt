//! The lines of a branch as they are found, and those of them that its ends rest on.
use crate::proving::kinds::kind_of;
use crate::proving::needed::{Needed, reason_at};
use crate::proving::reasons::{Reason, add_reasons};
use reo_net_base::Primitive;
use reo_refute_base::LogLine;
use reo_refute_live::{Judged, OpenBranch};
use reo_values::{Bytes, List, NoMemory};
use std::alloc::Global;

/// A line that was found: where its text begins, how many branches follow it, if it is a split,
/// where its reasons begin, and whether it stays.
#[derive(Clone, Copy)]
struct Drafted {
    line: LogLine,
    text: usize,
    branches: usize,
    reasons: usize,
    stays: bool,
}

/// The lines of a branch as they are found, with the reasons for which values went. A value that
/// went stays in the log where an end of the branch rests on it: it is of a kind of which no value
/// may be live for the end, or for a value that went later and stays, to be right.
#[derive(Drop)]
pub(crate) struct Draft {
    lines: List<Drafted>,
    /// Why values went, line by line.
    reasons: List<Reason>,
    needed: Needed,
}

impl Draft {
    /// No line, in a circuit of so many joints. `NoMemory` is out of memory.
    pub(crate) fn new(alloc: Global, joints: usize) -> Result<Draft, NoMemory> {
        Ok(Draft {
            lines: List::new(alloc),
            reasons: List::new(alloc),
            needed: Needed::new(alloc, joints)?,
        })
    }

    /// All lines are forgotten.
    pub(crate) fn clear(&mut self) {
        self.lines.clear();
        self.reasons.clear();
    }

    /// Adds a line that was found, by where its text begins, with so many branches behind it.
    /// `NoMemory` is out of memory.
    pub(crate) fn add<P: Primitive>(
        &mut self,
        judged: &Judged<'_, P>,
        live: &OpenBranch,
        line: LogLine,
        text: usize,
        branches: usize,
    ) -> Result<(), NoMemory> {
        let reasons = self.reasons.len();
        if let LogLine::Drop(joint, value, side) = line {
            add_reasons(judged, live.table(), joint, value, side, &mut self.reasons)?;
        }
        self.lines.push(Drafted {
            line,
            text,
            branches,
            reasons,
            stays: true,
        })
    }

    /// The reasons from one place to another are needed.
    fn need_all(&mut self, from: usize, to: usize) -> Result<(), NoMemory> {
        for index in from..to {
            if let Some(reason) = reason_at(&self.reasons, index) {
                self.needed.need(reason)?;
            }
        }
        Ok(())
    }

    /// Whether a line stays, where those behind it are known and its reasons end at a place.
    fn keeps(&mut self, drafted: Drafted, end: usize) -> Result<bool, NoMemory> {
        match drafted.line {
            LogLine::Drop(joint, value, _) => {
                let stays = self.needed.kinds_at(joint) & kind_of(value) != 0;
                if stays {
                    self.need_all(drafted.reasons, end)?;
                }
                return Ok(stays);
            }
            LogLine::Empty(joint) => self.needed.open(joint)?,
            LogLine::Split(joint) => self.needed.join(drafted.branches, joint)?,
            LogLine::At(_) => {}
        }
        Ok(true)
    }

    /// Finds the lines that the ends of the branch rest on; the others do not stay. `NoMemory` is
    /// out of memory.
    pub(crate) fn shorten(&mut self) -> Result<(), NoMemory> {
        let count = self.lines.len();
        let mut end = self.reasons.len();
        for past in 0..count {
            let index = count - 1 - past;
            if index < self.lines.len() {
                let drafted = *self.lines.at(index);
                let stays = self.keeps(drafted, end)?;
                end = drafted.reasons;
                self.put(index, stays);
            }
        }
        self.needed.clear();
        Ok(())
    }

    /// Puts whether the line of a number stays.
    fn put(&mut self, index: usize, stays: bool) {
        if index < self.lines.len() {
            self.lines.at_mut(index).stays = stays;
        }
    }

    /// Where the text of the line of a number begins, or where all texts end.
    fn text_at(&self, index: usize, end: usize) -> usize {
        match self.lines.get(index) {
            Some(drafted) => drafted.text,
            None => end,
        }
    }

    /// Adds the texts of the lines that stay, of the text of all lines. `NoMemory` is out of
    /// memory.
    pub(crate) fn put_kept(&self, whole: &[u8], out: &mut Bytes) -> Result<(), NoMemory> {
        for index in 0..self.lines.len() {
            let from = self.text_at(index, whole.len());
            let to = self.text_at(index.saturating_add(1), whole.len());
            if self.lines.at(index).stays && from <= to && to <= whole.len() {
                out.append(&whole[from..to])?;
            }
        }
        Ok(())
    }
}
