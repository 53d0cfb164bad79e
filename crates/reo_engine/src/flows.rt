//! What a round that stands is made with.
ghost use Rattle.std.specs.Prelude.{◌≡◌, ◌<◌, ℕ, None, true, false, [], IfOk, length, slice_index, slice_index_or};
ghost use Rattle.reo_net_base.specs.Net.{net_of};
ghost use Rattle.reo_net_laws.specs.Knots.{AreKnots, knot_count};
ghost use Rattle.reo_net_base.specs.Sides.{AreRowsOf, side_count};
ghost use Rattle.reo_net_laws.specs.Jams.{jams};
ghost use Rattle.reo_trace.specs.cells.Cells.{AreBrought, AreCells, HasTaken};
ghost use Rattle.reo_round.specs.Feeds.{AreFeeds};
ghost use Rattle.reo_round.specs.Filling.{AreBlank, HaveColouring};
ghost use Rattle.reo_engine.specs.Flows.{AreFlaggedShown, AreShownAt, AreWrittenAt, HasNoSheet, MayBeBlank, MayBeMarks, MayBeRows};

use reo_flags::Flags;
use reo_knots::Knots;
use reo_net_base::{Move, Primitive};
use reo_net_circuit::Circuit;
use reo_round::{Feeds, Sheet, blank};
use reo_rounds::is_jammed;
use reo_settling::{Kept, written_over};
use reo_trace::Cells;
use reo_values::{Bytes, List, NoMemory, Value};
use std::alloc::Global;
use std::mem::replace;

/// What a round that stands is made with: a list of no items at the joints, one of the rows that
/// are kept and a mark for each primitive, if there are such, a list of any numbers, one of any
/// moves and a text of any bytes, so that a round takes no memory for them; a flag for each part;
/// the cells of all sides; whether they show the rows that are kept of settled parts; and what
/// feeds each joint.
#[derive(Drop)]
pub struct Flows {
    pub(crate) blank: Option<List<Option<Value>>>,
    pub(crate) rows: Option<List<u32>>,
    pub(crate) flowing: List<usize>,
    pub(crate) marks: Option<Flags>,
    pub(crate) moves: List<Move>,
    pub(crate) shown_parts: Flags,
    pub(crate) cells: Cells,
    pub(crate) shown: bool,
    pub(crate) text: Bytes,
    pub(crate) feeds: Feeds,
}

impl Flows {
    /// For a circuit. `NoMemory` is out of memory.
    pub(crate) fn new<P: Primitive>(
        alloc: Global,
        circuit: &Circuit<P>,
        knots: &Knots,
    ) -> Result<Flows, NoMemory>
        requires { AreKnots (net_of P.behaviour circuit.now) knots.now }
        ensures blank { IfOk result (λ made. made.blank ≡ None) }
        ensures rows { IfOk result (λ made. made.rows ≡ None) }
        ensures marks { IfOk result (λ made. made.marks ≡ None) }
        ensures one_each { IfOk result (λ made. length made.shown_parts ≡ knot_count knots.now) }
        ensures cells { IfOk result (λ made. AreCells (net_of P.behaviour circuit.now) made.cells) }
        ensures shown { IfOk result (λ made. made.shown ≡ false) }
        ensures feeds { IfOk result (λ made. AreFeeds (net_of P.behaviour circuit.now) made.feeds) }
    {
        let cells = Cells::new(alloc, circuit)?;
        let feeds = Feeds::new(alloc, circuit)?;
        let shown_parts = Flags::new(alloc, knots.count(), false)?;
        Ok(Flows {
            blank: None,
            rows: None,
            flowing: List::new(alloc),
            marks: None,
            moves: List::new(alloc),
            shown_parts,
            cells,
            shown: false,
            text: Bytes::new(alloc),
            feeds,
        })
    }
}

/// Flags exactly the parts whose rows are shown: the settled ones, where the rows that are kept of
/// those are. This takes no memory.
pub(crate) fn flag_shown(kept: &Kept, shown: bool, parts: &mut Flags)
    requires { length kept.now.settled ≡ length parts.old }
    ensures { AreFlaggedShown shown kept.now (length parts.old) parts.new }
{
    if shown {
        parts.copy_from(kept.settled());
    } else {
        parts.clear();
    }
}

/// Whether the first of some sides has no jam row; there is no first of none. This takes no memory.
fn first_is_plain<P: Primitive>(circuit: &Circuit<P>, rows: &[u32], sides: &[usize]) -> bool
    requires rows { AreRowsOf (net_of P.behaviour circuit.now) rows.now }
    requires sides { let net = net_of P.behaviour circuit.now in
        (m : ℕ) → m < length sides.now → slice_index sides.now m < side_count net }
    ensures { let net = net_of P.behaviour circuit.now in
        result ≡ true → jams net rows.now (slice_index sides.now 0) ≡ false }
{
    if sides.is_empty() {
        return false;
    }
    !is_jammed(circuit, rows, sides[0])
}

/// Shows these rows at the sides of a part, and writes them there over those of a list. They jam
/// the part as a whole, or no side of it, so one side is looked at for whether they do. This takes
/// no memory.
fn show_part<P: Primitive>(
    circuit: &Circuit<P>,
    knots: &Knots,
    part: usize,
    rows: &[u32],
    cells: &mut Cells,
    list: &mut List<u32>,
)
    requires knots { AreKnots (net_of P.behaviour circuit.now) knots.now }
    requires part { part < knot_count knots.now }
    requires coloured { HaveColouring (net_of P.behaviour circuit.now) rows.now }
    requires cells { AreCells (net_of P.behaviour circuit.now) cells.old }
    requires one_row { length list.old ≡ length rows.now }
    ensures cells { AreCells (net_of P.behaviour circuit.now) cells.new }
    ensures brought { let net = net_of P.behaviour circuit.now in
        let sides = slice_index_or knots.now.sides part [] in
        AreBrought net rows.now sides cells.old cells.new }
    ensures written { let sides = slice_index_or knots.now.sides part [] in
        HasTaken rows.now sides list.old list.new }
{
    circuit.known();
    let sides = knots.sides(part);
    if first_is_plain(circuit, rows, sides) {
        cells.renew_plain(circuit, rows, sides, list);
    } else {
        cells.renew(circuit, rows, sides, list);
    }
}

/// Shows these rows at the sides of the parts that are not flagged, and writes them there over
/// those of a list. This takes no memory.
pub(crate) fn show_rest<P: Primitive>(
    circuit: &Circuit<P>,
    knots: &Knots,
    rows: &[u32],
    shown_parts: &Flags,
    cells: &mut Cells,
    list: &mut List<u32>,
)
    requires knots { AreKnots (net_of P.behaviour circuit.now) knots.now }
    requires coloured { HaveColouring (net_of P.behaviour circuit.now) rows.now }
    requires one_each { length shown_parts.now ≡ knot_count knots.now }
    requires cells { AreCells (net_of P.behaviour circuit.now) cells.old }
    requires one_row { length list.old ≡ length rows.now }
    ensures cells { AreCells (net_of P.behaviour circuit.now) cells.new }
    ensures written { let net = net_of P.behaviour circuit.now in
        let count = knot_count knots.now in
        AreWrittenAt net knots.now rows.now shown_parts.now count list.old list.new }
    ensures shown { let net = net_of P.behaviour circuit.now in let count = knot_count knots.now in
        AreShownAt net knots.now rows.now shown_parts.now count cells.old cells.new }
{
    circuit.known();
    let mut part = shown_parts.next_clear(0);
    while part < shown_parts.len() {
        show_part(circuit, knots, part, rows, cells, list);
        part = shown_parts.next_clear(part + 1);
    }
}

/// A sheet with these rows, of lists and marks that are taken out or made. `NoMemory` is out of
/// memory.
pub(crate) fn take_sheet(
    alloc: Global,
    flows: &mut Flows,
    rows: &[u32],
    joints: usize,
    primitives: usize,
) -> Result<Sheet, NoMemory>
    requires blank { MayBeBlank joints flows.old.blank }
    requires rows { MayBeRows rows.now flows.old.rows }
    requires marks { MayBeMarks primitives flows.old.marks }
    ensures rows { IfOk result (λ sheet. sheet.rows ≡ rows.now) }
    ensures items { IfOk result (λ sheet. AreBlank joints sheet.items) }
    ensures marks { IfOk result (λ sheet. length sheet.marks ≡ primitives) }
    ensures taken { HasNoSheet flows.old flows.new }
{
    let flowing = replace(&mut flows.flowing, List::new(alloc));
    let items = take_blank(alloc, &mut flows.blank, joints)?;
    let marks = take_marks(alloc, &mut flows.marks, primitives)?;
    let rows = take_rows(alloc, &mut flows.rows, rows)?;
    let moves = replace(&mut flows.moves, List::new(alloc));
    Ok(Sheet {
        rows,
        items,
        flowing,
        marks,
        moves,
    })
}

/// The list of no items, taken out or made. `NoMemory` is out of memory.
fn take_blank(
    alloc: Global,
    list: &mut Option<List<Option<Value>>>,
    joints: usize,
) -> Result<List<Option<Value>>, NoMemory>
    requires { MayBeBlank joints list.old }
    ensures blank { IfOk result (AreBlank joints) }
    ensures taken { list.new ≡ None }
{
    match list.take() {
        Some(items) => Ok(items),
        None => blank(alloc, joints),
    }
}

/// A list of these rows, taken out or made. `NoMemory` is out of memory.
pub(crate) fn take_rows(
    alloc: Global,
    list: &mut Option<List<u32>>,
    rows: &[u32],
) -> Result<List<u32>, NoMemory>
    requires { MayBeRows rows.now list.old }
    ensures rows { IfOk result (λ made. made ≡ rows.now) }
    ensures taken { list.new ≡ None }
{
    match list.take() {
        Some(made) => Ok(made),
        None => written_over(List::new(alloc), rows),
    }
}

/// A list of these rows, written over others, unless there is no memory.
pub(crate) fn rewritten(list: List<u32>, rows: &[u32]) -> Option<List<u32>>
    ensures { MayBeRows rows.now result }
{
    match written_over(list, rows) {
        Ok(made) => Some(made),
        Err(_) => None,
    }
}

/// A mark for each primitive, with any values, taken out or made. `NoMemory` is out of memory.
fn take_marks(
    alloc: Global,
    marks: &mut Option<Flags>,
    primitives: usize,
) -> Result<Flags, NoMemory>
    requires { MayBeMarks primitives marks.old }
    ensures one_each { IfOk result (λ made. length made ≡ primitives) }
    ensures taken { marks.new ≡ None }
{
    match marks.take() {
        Some(marks) => Ok(marks),
        None => Flags::new(alloc, primitives, false),
    }
}
