//! What the lines of a branch rest on, found from its end.
use crate::proving::kinds::ALL;
use crate::proving::reasons::Reason;
use reo_values::{List, NoMemory};
use std::alloc::Global;

/// The kinds of values, by their joints, whose going the lines behind rest on. Each end of a branch
/// opens a piece; those of a split become one where the split is met.
#[derive(Drop)]
pub(crate) struct Needed {
    /// For each joint the kinds that the present piece rests on.
    kinds: List<u8>,
    /// What each piece rests on, piece by piece.
    reasons: List<Reason>,
    /// Where each piece begins among them.
    pieces: List<usize>,
}

/// For each joint no kind.
fn no_kinds(alloc: Global, joints: usize) -> Result<List<u8>, NoMemory> {
    match vec![in alloc; 0; joints] {
        Ok(kinds) => Ok(List::from_vec(kinds)),
        Err(_) => Err(NoMemory),
    }
}

/// The reason at a place of a list, if there is one.
pub(crate) fn reason_at(reasons: &List<Reason>, index: usize) -> Option<Reason> {
    match reasons.get(index) {
        Some(reason) => Some(*reason),
        None => None,
    }
}

impl Needed {
    /// No piece, in a circuit of so many joints. `NoMemory` is out of memory.
    pub(crate) fn new(alloc: Global, joints: usize) -> Result<Needed, NoMemory> {
        Ok(Needed {
            kinds: no_kinds(alloc, joints)?,
            reasons: List::new(alloc),
            pieces: List::new(alloc),
        })
    }

    /// The kinds at a joint that the present piece rests on; none past the last joint.
    pub(crate) fn kinds_at(&self, joint: usize) -> u8 {
        match self.kinds.get(joint) {
            Some(kinds) => *kinds,
            None => 0,
        }
    }

    /// Puts the kinds of a joint, unless it is past the last.
    fn put(&mut self, joint: usize, kinds: u8) {
        if joint < self.kinds.len() {
            *self.kinds.at_mut(joint) = kinds;
        }
    }

    /// Puts a reason to those of the present piece.
    fn mark(&mut self, reason: Reason) {
        let kinds = self.kinds_at(reason.joint) | reason.kinds;
        self.put(reason.joint, kinds);
    }

    /// The present piece rests on a reason, too. `NoMemory` is out of memory.
    pub(crate) fn need(&mut self, reason: Reason) -> Result<(), NoMemory> {
        if self.kinds_at(reason.joint) & reason.kinds != reason.kinds {
            self.reasons.push(reason)?;
            self.mark(reason);
        }
        Ok(())
    }

    /// Where the present piece begins.
    fn start(&self) -> usize {
        match self.pieces.as_slice().last() {
            Some(start) => *start,
            None => 0,
        }
    }

    /// The kinds of the pieces from a place on are put away.
    fn unmark(&mut self, start: usize) {
        for index in start..self.reasons.len() {
            if let Some(reason) = reason_at(&self.reasons, index) {
                self.put(reason.joint, 0);
            }
        }
    }

    /// A piece begins at its end, which rests on all that went at a joint. `NoMemory` is out of
    /// memory.
    pub(crate) fn open(&mut self, joint: usize) -> Result<(), NoMemory> {
        let start = self.start();
        self.unmark(start);
        self.pieces.push(self.reasons.len())?;
        self.need(Reason { joint, kinds: ALL })
    }

    /// The last pieces, so many, become one, which rests on all that went at a joint, too.
    /// `NoMemory` is out of memory.
    pub(crate) fn join(&mut self, pieces: usize, joint: usize) -> Result<(), NoMemory> {
        for _piece in 1..pieces {
            let _ = self.pieces.pop();
        }
        for index in self.start()..self.reasons.len() {
            if let Some(reason) = reason_at(&self.reasons, index) {
                self.mark(reason);
            }
        }
        self.need(Reason { joint, kinds: ALL })
    }

    /// All pieces are forgotten.
    pub(crate) fn clear(&mut self) {
        self.unmark(0);
        self.reasons.clear();
        self.pieces.clear();
    }
}
