//! The search of a part.
ghost use Rattle.std.specs.Prelude.{◌≡◌, ◌*◌, ◌<◌, ◌≤◌, IfOk, length};
ghost use Rattle.reo_net_base.specs.Net.{net_of};
ghost use Rattle.reo_net_base.specs.Sides.{side_count};
ghost use Rattle.reo_net_circuit.specs.found_ends.Ends.{AreEnds};
ghost use Rattle.reo_net_laws.specs.Knots.{AreKnots, in_knot, knot_count};
ghost use Rattle.reo_mark_search.specs.MarkFinding.{IsMarkSearch, AreRowsElsewhere, IsFound};
ghost use Rattle.reo_mark_search.specs.Spots.{AreSpots};

use crate::fixing::fixed_all;
use crate::found::MarkFinding;
use crate::narrowing::narrow_waiting;
use crate::noting::note_all;
use crate::searched::Searched;
use crate::spots::{keepers_of, spots_of};
use crate::walking::{class_all, jam_all, lead_all, meets_all, row_all};
use reo_knots::Knots;
use reo_mark_sets::MarkSets;
use reo_net_base::{Form, Primitive, Table};
use reo_net_circuit::{Circuit, Ends};
use reo_values::{List, NoMemory};
use std::alloc::Global;

/// What is kept for the searches of a circuit, made once: where the marks of ends stand, the forms
/// of the sides of the part that is searched, and the marks.
#[derive(Drop)]
pub struct MarkSearch {
    pub(crate) spots: List<List<usize>>,
    pub(crate) forms: List<Form>,
    pub(crate) sets: MarkSets,
}

/// So many forms, any. `NoMemory` is out of memory.
fn some_forms(alloc: Global, count: usize) -> Result<List<Form>, NoMemory>
    ensures { IfOk result (λ made. length made ≡ count) }
{
    match vec![in alloc; Form::Single(Table::Ready); count] {
        Ok(made) => Ok(List::from_vec(made)),
        Err(_) => Err(NoMemory),
    }
}

/// Searches a part, and writes the rows that it finds down.
fn search_part<P: Primitive>(
    circuit: &Circuit<P>,
    knots: &Knots,
    spots: &List<List<usize>>,
    forms: &mut List<Form>,
    sets: &mut MarkSets,
    part: usize,
    turn: u64,
    rows: &mut List<u32>,
) -> MarkFinding
    requires knots { AreKnots (net_of P.behaviour circuit.now) knots.now }
    requires part { part < knot_count knots.now }
    requires spots { AreSpots (net_of P.behaviour circuit.now) spots.now }
    requires forms { length forms.old ≡ side_count (net_of P.behaviour circuit.now) }
    requires sets { length sets.old ≡ 2 * length circuit.now.joints }
    requires rows { length rows.old ≡ side_count (net_of P.behaviour circuit.now) }
    ensures one_form { length forms.new ≡ length forms.old }
    ensures one_each { length sets.new ≡ length sets.old }
    ensures found { IsFound (net_of P.behaviour circuit.now) (in_knot knots.now.numbers part) turn
        rows.new result }
    ensures elsewhere { AreRowsElsewhere (in_knot knots.now.numbers part) rows.old rows.new }
{
    circuit.known();
    let _order = circuit.order();
    if !note_all(circuit, knots, spots, forms, sets, part) {
        sets.calm();
        return MarkFinding::Unknown;
    }
    let searched = Searched {
        circuit,
        knots,
        part,
        turn,
        spots,
        forms,
    };
    if !narrow_waiting(&searched, sets) {
        jam_all(circuit, knots, part, rows);
        return MarkFinding::Jam;
    }
    if !lead_all(&searched, sets) {
        return MarkFinding::Unknown;
    }
    if fixed_all(&searched, sets, rows) {
        return MarkFinding::Rows;
    }
    if !class_all(&searched, sets) {
        return MarkFinding::Unknown;
    }
    if !row_all(&searched, sets, rows) {
        return MarkFinding::Unknown;
    }
    if !meets_all(&searched, sets) {
        return MarkFinding::Unknown;
    }
    MarkFinding::Rows
}

impl MarkSearch {
    /// For a circuit, in whatever state of it. `NoMemory` is out of memory.
    pub fn new<P: Primitive>(
        alloc: Global,
        circuit: &Circuit<P>,
        ends: &Ends,
    ) -> Result<MarkSearch, NoMemory>
        requires ends { AreEnds (net_of P.behaviour circuit.now) ends.now }
        ensures { IfOk result (IsMarkSearch (net_of P.behaviour circuit.now)) }
    {
        let spots = spots_of(alloc, circuit, ends)?;
        let forms = some_forms(alloc, circuit.sides())?;
        let keepers = keepers_of(alloc, circuit)?;
        let sets = MarkSets::new(alloc, keepers, circuit.sides())?;
        Ok(MarkSearch { spots, forms, sets })
    }

    /// Searches a part in the round of a number, and writes the rows of its first assignment down
    /// where it finds them. This takes no memory and makes no tick.
    ///
    /// `Jam` comes only where nothing does without a jam. `Unknown` says nothing: then the rows of
    /// the part are any.
    pub fn search<P: Primitive>(
        &mut self,
        circuit: &Circuit<P>,
        knots: &Knots,
        part: usize,
        turn: u64,
        rows: &mut List<u32>,
    ) -> MarkFinding
        requires knots { AreKnots (net_of P.behaviour circuit.now) knots.now }
        requires part { part < knot_count knots.now }
        requires search { IsMarkSearch (net_of P.behaviour circuit.now) self.old }
        requires rows { length rows.old ≡ side_count (net_of P.behaviour circuit.now) }
        ensures search { IsMarkSearch (net_of P.behaviour circuit.now) self.new }
        ensures found { IsFound (net_of P.behaviour circuit.now)
            (in_knot knots.now.numbers part) turn rows.new result }
        ensures elsewhere { AreRowsElsewhere (in_knot knots.now.numbers part) rows.old rows.new }
    {
        search_part(
            circuit,
            knots,
            &self.spots,
            &mut self.forms,
            &mut self.sets,
            part,
            turn,
            rows,
        )
    }
}
