//! The line of a round, with the cells that are kept.
ghost use Rattle.std.specs.Prelude.{◌≡◌, ◌<◌, ◌≤◌, ◌*◌, ◌++◌, ℕ, [], IfOk, ◌==◌, OnOk, codes, length, List as Listed};
ghost use Rattle.std.specs.Fmt.{decimal};
ghost use Rattle.reo_net_base.specs.Net.{Net};
ghost use Rattle.reo_net_base.specs.Sides.{AreRowsOf};
ghost use Rattle.reo_net_base.specs.Wired.{IsWired};
ghost use Rattle.reo_trace.specs.Entries.{is_idle, line_for};
ghost use Rattle.reo_trace.specs.RoundText.{moves_text, round_text};
ghost use Rattle.reo_trace.specs.cells.Cells.{AreCells, AreShown};
ghost use Rattle.reo_trace.specs.cells.Texts.{IsNextWide, bar, befores, cells_text};

use crate::cells::Cells;
use crate::cells::code::{append_code, is_wide};
use crate::{append_moves, append_number};
use reo_net_base::{Move, Ports};
use reo_values::{Bytes, NoMemory};
use std::alloc::Global;

/// Adds the number of a round and its moves.
fn append_head(
    alloc: Global,
    text: &mut Bytes,
    ports: &Ports,
    round: u64,
    idle: bool,
    moves: &[Move],
) -> Result<(), NoMemory>
    ensures { let flows = moves_text ports.now.list idle moves.now in
        OnOk result (text.new ≡ text.old ++ (codes "round " ++ (decimal round ++
        (codes ": " ++ flows)))) }
{
    text.append(b"round ")?;
    append_number(text, round)?;
    text.append(b": ")?;
    append_moves(alloc, text, ports, idle, moves)
}

impl Cells {
    /// Adds the bar before the cells, and the space behind it where there are none.
    fn append_bar(&self, text: &mut Bytes) -> Result<(), NoMemory>
        ensures { OnOk result (text.new ≡ text.old ++ bar (length self.now.text == 0)) }
    {
        if self.text.is_empty() {
            text.append(b" | ")
        } else {
            text.append(b" |")
        }
    }

    /// The least place from another on at which a cell is wide, or the number of cells if none is.
    fn next_wide(&self, from: usize) -> usize
        ensures { IsNextWide self.now.shown from result }
    {
        let codes = self.shown.as_slice();
        for place in from..codes.len() {
            if is_wide(codes[place]) {
                return place;
            }
        }
        codes.len()
    }

    /// Adds the cells, each with what stands before it: from one wide cell to the next what is kept
    /// is the text.
    fn append_runs(&self, text: &mut Bytes) -> Result<(), NoMemory>
        requires { 2 * length self.now.shown ≤ length self.now.text }
        ensures { (net : Net) → AreCells net self.now →
            OnOk result (text.new ≡ text.old ++ cells_text (befores net) self.now.shown) }
    {
        let kept = self.text.as_slice();
        let mut from = 0;
        let mut place = self.next_wide(0);
        while place < self.shown.len() {
            text.append(&kept[2 * from..2 * place + 1])?;
            append_code(text, *self.shown.at(place))?;
            from = place + 1;
            place = self.next_wide(from);
        }
        text.append(&kept[2 * from..])
    }

    /// Adds the cells, of which some are wide, each with what stands before it.
    fn append_each(&self, text: &mut Bytes) -> Result<(), NoMemory>
        ensures { (net : Net) → AreCells net self.now →
            OnOk result (text.new ≡ text.old ++ cells_text (befores net) self.now.shown) }
    {
        if self.shown.len() <= self.text.len() / 2 {
            self.append_runs(text)
        } else {
            Ok(())
        }
    }

    /// Adds the cells, each with what stands before it.
    fn append_cells(&self, text: &mut Bytes) -> Result<(), NoMemory>
        ensures { (net : Net) → AreCells net self.now →
            OnOk result (text.new ≡ text.old ++ cells_text (befores net) self.now.shown) }
    {
        if self.wide == 0 {
            text.append(self.text.as_slice())
        } else {
            self.append_each(text)
        }
    }

    /// Adds the bar, the cells and the line feed.
    fn append_tail(&self, text: &mut Bytes) -> Result<(), NoMemory>
        ensures { (net : Net) → AreCells net self.now →
            let cells = cells_text (befores net) self.now.shown in
            OnOk result (text.new ≡ text.old ++ (bar (length self.now.text == 0) ++
            (cells ++ codes "\n"))) }
    {
        self.append_bar(text)?;
        self.append_cells(text)?;
        text.append(b"\n")
    }

    /// The text of the line of a round by whose rows all cells are shown, where these items flow at
    /// its ports, its line feed included. Whether anything flows is known. It is written over other
    /// bytes, in whose room it stands where that is enough.
    ///
    /// `NoMemory` is out of memory.
    pub fn line_text(
        &self,
        alloc: Global,
        over: Bytes,
        ports: &Ports,
        round: u64,
        idle: bool,
        moves: &[Move],
    ) -> Result<Bytes, NoMemory>
        ensures { (net : Net) (rows : Listed ℕ) → IsWired net → AreCells net self.now
            → AreRowsOf net rows → AreShown net rows self.now → idle ≡ is_idle net rows
            → let line = line_for net round rows moves.now in
            IfOk result (λ text. text ≡ round_text ports.now.list line) }
    {
        let mut text = over;
        text.clear();
        append_head(alloc, &mut text, ports, round, idle, moves)?;
        self.append_tail(&mut text)?;
        Ok(text)
    }
}
