//! The rows of one part.
ghost use Rattle.std.specs.Prelude.{◌≡◌, ◌≤◌, ◌+◌, ℕ, true, cond, IfOk, IfSome, IsTrue, MatchResult, OnOk, length, slice_index};
ghost use Rattle.reo_net_base.specs.Sides.{side_count};
ghost use Rattle.reo_weights.specs.Weights.{IsWeight};
ghost use Rattle.reo_mark_search.specs.MarkFinding.{AreRowsElsewhere, HasFirstRows};
ghost use Rattle.reo_item_bounds.specs.Bounds.{HasBounds};
ghost use Rattle.reo_part_plans.specs.Plannings.{IsFaultAt, IsKept, IsPartOf, IsPlannedAt, in_part, is_settled, net_at, serves};
ghost use Rattle.reo_weights.specs.still.Joining.{HasFirst};
ghost use Rattle.reo_flows.specs.flowing.Flowing.{AreRowsIn};
ghost use Rattle.reo_settling.specs.Lookups.{AreFlowingAt, AreListed, AreSteadyFor, IsListedAt};

use crate::lookups::Lookups;
use crate::renewing::renewed;
use crate::standing::Standing;
use reo_flows::put_flowing;
use reo_mark_search::MarkFinding;
use reo_net_base::Primitive;
use reo_part_plans::{PartOf, search_part};
use reo_rounds::Exceeds;
use reo_steps::Steps;
use reo_values::{List, NoMemory};
use std::alloc::Global;
use std::sync::ledger::Ledger;

impl Lookups {
    /// Searches a part by values, and writes the rows of its first assignment down. The tables are
    /// made ready for the search, and are kept.
    fn search_by_values<P: Primitive, L: Ledger>(
        &mut self,
        alloc: Global,
        part: &PartOf<'_, P>,
        steps: &mut Steps<L>,
        rows: &mut List<u32>,
    ) -> Result<(), Exceeds>
        requires part { IsPartOf (net_at P.behaviour part.now) part.now }
        requires steady { AreSteadyFor (net_at P.behaviour part.now) part.now self.old }
        requires rows { length rows.old ≡ side_count (net_at P.behaviour part.now) }
        ensures steady { AreSteadyFor (net_at P.behaviour part.now) part.now self.new }
        ensures listed { AreListed self.old self.new }
        ensures exact { let net = net_at P.behaviour part.now in
            MatchResult result (λ _. IsPlannedAt net part.now rows.old rows.new)
            (IsFaultAt net part.now) }
        ensures ticks { let net = net_at P.behaviour part.now in
            (w : ℕ) → IsWeight net (in_part part.now) w → steps.new ≤ steps.old + w }
    {
        let tables = self.tables.take();
        let fresh = &self.fresh;
        let mut ready = renewed(alloc, part.planning, &self.orders, fresh, tables)?;
        search_part(alloc, part, &mut ready, steps, rows)?;
        self.fresh.set_all();
        self.tables = Some(ready);
        Ok(())
    }

    /// Searches a part by marks, and writes the rows of its first assignment down. The answer is
    /// whether they were found; where they were not, the rows of the part are any. This takes no
    /// memory and makes no tick.
    fn search_by_marks<P: Primitive>(&mut self, part: &PartOf<'_, P>, rows: &mut List<u32>) -> bool
        requires part { IsPartOf (net_at P.behaviour part.now) part.now }
        requires steady { AreSteadyFor (net_at P.behaviour part.now) part.now self.old }
        requires rows { length rows.old ≡ side_count (net_at P.behaviour part.now) }
        ensures steady { AreSteadyFor (net_at P.behaviour part.now) part.now self.new }
        ensures listed { AreListed self.old self.new }
        ensures found { let turn = part.now.planning.now.turn in IsTrue result
            → HasFirstRows (net_at P.behaviour part.now) (in_part part.now) turn rows.new }
        ensures elsewhere { AreRowsElsewhere (in_part part.now) rows.old rows.new }
    {
        let planning = part.planning;
        match self.marks.search(
            planning.circuit,
            planning.knots,
            part.number,
            planning.turn,
            rows,
        ) {
            MarkFinding::Rows => true,
            MarkFinding::Jam => true,
            MarkFinding::Unknown => false,
        }
    }

    /// Searches a part whose loop joints have at most so many choices of values, and writes the
    /// rows of its first assignment down: by marks where the budget allows for all choices, and by
    /// values where that finds nothing.
    fn search_bounded<P: Primitive, L: Ledger>(
        &mut self,
        alloc: Global,
        part: &PartOf<'_, P>,
        choices: u64,
        steps: &mut Steps<L>,
        rows: &mut List<u32>,
    ) -> Result<(), Exceeds>
        requires part { IsPartOf (net_at P.behaviour part.now) part.now }
        requires choices { HasBounds (net_at P.behaviour part.now) (in_part part.now) choices }
        requires steady { AreSteadyFor (net_at P.behaviour part.now) part.now self.old }
        requires rows { length rows.old ≡ side_count (net_at P.behaviour part.now) }
        ensures steady { AreSteadyFor (net_at P.behaviour part.now) part.now self.new }
        ensures listed { AreListed self.old self.new }
        ensures exact { let net = net_at P.behaviour part.now in
            MatchResult result (λ _. IsPlannedAt net part.now rows.old rows.new)
            (IsFaultAt net part.now) }
        ensures ticks { let net = net_at P.behaviour part.now in
            (w : ℕ) → IsWeight net (in_part part.now) w → steps.new ≤ steps.old + w }
    {
        part.planning.circuit.known();
        let _order = part.planning.circuit.order();
        if choices > part.planning.budget {
            return self.search_by_values(alloc, part, steps, rows);
        }
        if self.search_by_marks(part, rows) {
            return Ok(());
        }
        self.search_by_values(alloc, part, steps, rows)
    }

    /// Searches a part, and writes the rows of its first assignment down. The search is by marks
    /// where a bound of the part's weight is known and within the budget. The answer is the bound,
    /// if one is known.
    fn search<P: Primitive, L: Ledger>(
        &mut self,
        alloc: Global,
        part: &PartOf<'_, P>,
        steps: &mut Steps<L>,
        rows: &mut List<u32>,
    ) -> Result<Option<u64>, Exceeds>
        requires part { IsPartOf (net_at P.behaviour part.now) part.now }
        requires steady { AreSteadyFor (net_at P.behaviour part.now) part.now self.old }
        requires rows { length rows.old ≡ side_count (net_at P.behaviour part.now) }
        ensures steady { AreSteadyFor (net_at P.behaviour part.now) part.now self.new }
        ensures listed { AreListed self.old self.new }
        ensures bound { let net = net_at P.behaviour part.now in
            IfOk result (λ found. IfSome found (HasBounds net (in_part part.now))) }
        ensures exact { let net = net_at P.behaviour part.now in
            MatchResult result (λ _. IsPlannedAt net part.now rows.old rows.new)
            (IsFaultAt net part.now) }
        ensures ticks { let net = net_at P.behaviour part.now in
            (w : ℕ) → IsWeight net (in_part part.now) w → steps.new ≤ steps.old + w }
    {
        let planning = part.planning;
        planning.circuit.known();
        let joints = self.orders.at(part.number).as_slice();
        let found = self.bounds.most_choices(
            planning.circuit,
            planning.ends,
            planning.knots,
            part.number,
            joints,
            planning.budget,
        );
        match found {
            None => self.search_by_values(alloc, part, steps, rows)?,
            Some(choices) => self.search_bounded(alloc, part, choices, steps, rows)?,
        }
        Ok(found)
    }

    /// Lists the joints of a part that flow by these rows, of which those of other parts may be
    /// any. `NoMemory` is out of memory.
    fn list_flowing<P: Primitive>(
        &mut self,
        part: &PartOf<'_, P>,
        rows: &[u32],
    ) -> Result<(), NoMemory>
        requires part { IsPartOf (net_at P.behaviour part.now) part.now }
        requires rows { AreRowsIn (net_at P.behaviour part.now) (in_part part.now) rows.now }
        requires steady { AreSteadyFor (net_at P.behaviour part.now) part.now self.old }
        ensures steady { AreSteadyFor (net_at P.behaviour part.now) part.now self.new }
        ensures listed { IsListedAt part.now.number self.old self.new }
        ensures flowing { let net = net_at P.behaviour part.now in
            OnOk result (AreFlowingAt net part.now rows.now self.new) }
    {
        part.planning.circuit.known();
        let joints = self.orders.at(part.number).as_slice();
        let list = self.flowing.at_mut(part.number);
        put_flowing(part.planning.circuit, rows, joints, list)
    }

    /// Remembers the rows of a part with its joints that flow, where a bound of its weight is
    /// known. `NoMemory` is out of memory.
    fn remember<P: Primitive>(
        &mut self,
        alloc: Global,
        part: &PartOf<'_, P>,
        bound: Option<u64>,
        rows: &[u32],
    ) -> Result<(), NoMemory>
        requires part { IsPartOf (net_at P.behaviour part.now) part.now }
        requires turn { 1 ≤ part.now.planning.now.turn }
        requires bound { let net = net_at P.behaviour part.now in
            IfSome bound (HasBounds net (in_part part.now)) }
        requires steady { AreSteadyFor (net_at P.behaviour part.now) part.now self.old }
        requires one_row { length rows.now ≡ side_count (net_at P.behaviour part.now) }
        requires first { let planning = part.now.planning.now in
            HasFirst (net_at P.behaviour part.now)
            planning.knots.now.numbers planning.turn rows.now part.now.number }
        requires flowing { let net = net_at P.behaviour part.now in
            AreFlowingAt net part.now rows.now self.old }
        ensures steady { AreSteadyFor (net_at P.behaviour part.now) part.now self.new }
        ensures listed { AreListed self.old self.new }
    {
        let Some(choices) = bound else {
            return Ok(());
        };
        let joints = self.flowing.at(part.number).as_slice();
        self.plans.remember(alloc, part, choices, rows, joints)
    }

    /// Writes the rows of the first assignment of a part down, which are not remembered, and lists
    /// its joints that flow: the part is searched, and what was found is remembered.
    fn find<P: Primitive, L: Ledger>(
        &mut self,
        alloc: Global,
        part: &PartOf<'_, P>,
        steps: &mut Steps<L>,
        rows: &mut List<u32>,
    ) -> Result<(), Exceeds>
        requires part { IsPartOf (net_at P.behaviour part.now) part.now }
        requires turn { 1 ≤ part.now.planning.now.turn }
        requires steady { AreSteadyFor (net_at P.behaviour part.now) part.now self.old }
        requires rows { length rows.old ≡ side_count (net_at P.behaviour part.now) }
        ensures steady { AreSteadyFor (net_at P.behaviour part.now) part.now self.new }
        ensures listed { IsListedAt part.now.number self.old self.new }
        ensures flowing { let net = net_at P.behaviour part.now in
            OnOk result (AreFlowingAt net part.now rows.new self.new) }
        ensures exact { let net = net_at P.behaviour part.now in
            MatchResult result (λ _. IsPlannedAt net part.now rows.old rows.new)
            (IsFaultAt net part.now) }
        ensures ticks { let net = net_at P.behaviour part.now in
            (w : ℕ) → IsWeight net (in_part part.now) w → steps.new ≤ steps.old + w }
    {
        let bound = self.search(alloc, part, steps, rows)?;
        let rows = rows.as_slice();
        self.list_flowing(part, rows)?;
        self.remember(alloc, part, bound, rows)?;
        Ok(())
    }

    /// Lists the joints of a part that flow by rows that are kept of it, where they are not told.
    fn list_served<P: Primitive>(
        &mut self,
        part: &PartOf<'_, P>,
        told: bool,
        rows: &[u32],
    ) -> Result<(), NoMemory>
        requires part { IsPartOf (net_at P.behaviour part.now) part.now }
        requires rows { AreRowsIn (net_at P.behaviour part.now) (in_part part.now) rows.now }
        requires steady { AreSteadyFor (net_at P.behaviour part.now) part.now self.old }
        requires told { let net = net_at P.behaviour part.now in
            told ≡ true → AreFlowingAt net part.now rows.now self.old }
        ensures steady { AreSteadyFor (net_at P.behaviour part.now) part.now self.new }
        ensures listed { IsListedAt part.now.number self.old self.new }
        ensures flowing { let net = net_at P.behaviour part.now in
            OnOk result (AreFlowingAt net part.now rows.now self.new) }
    {
        if told {
            return Ok(());
        }
        self.list_flowing(part, rows)
    }

    /// Writes the rows of the first assignment of a part down, and lists its joints that flow by
    /// them: those that are kept stand there already, where they serve; else they are remembered,
    /// or the part is searched.
    pub(crate) fn find_part<P: Primitive, L: Ledger>(
        &mut self,
        alloc: Global,
        part: &PartOf<'_, P>,
        standing: &Standing<'_>,
        steps: &mut Steps<L>,
        rows: &mut List<u32>,
    ) -> Result<(), Exceeds>
        requires part { IsPartOf (net_at P.behaviour part.now) part.now }
        requires turn { 1 ≤ part.now.planning.now.turn }
        requires kept { let planning = part.now.planning.now in
            IsKept (net_at P.behaviour part.now)
            planning.knots.now planning.turn standing.now.kept.now }
        requires steady { AreSteadyFor (net_at P.behaviour part.now) part.now self.old }
        requires rows { length rows.old ≡ side_count (net_at P.behaviour part.now) }
        requires here { (s : ℕ) → in_part part.now s ≡ true
            → slice_index rows.old s ≡ slice_index standing.now.kept.now.rows s }
        requires told { let net = net_at P.behaviour part.now in
            standing.now.told ≡ true → is_settled standing.now.kept.now part.now.number ≡ true
            → AreFlowingAt net part.now rows.old self.old }
        ensures steady { AreSteadyFor (net_at P.behaviour part.now) part.now self.new }
        ensures listed { IsListedAt part.now.number self.old self.new }
        ensures flowing { let net = net_at P.behaviour part.now in
            OnOk result (AreFlowingAt net part.now rows.new self.new) }
        ensures exact { let net = net_at P.behaviour part.now in
            MatchResult result (λ _. IsPlannedAt net part.now rows.old rows.new)
            (IsFaultAt net part.now) }
        ensures ticks { let budget = part.now.planning.now.budget in
            (w : ℕ) → IsWeight (net_at P.behaviour part.now) (in_part part.now) w
            → steps.new ≤ steps.old
            + cond (serves standing.now.kept.now budget part.now.number) 0 w }
    {
        part.planning.circuit.known();
        if standing.kept.serves(part.number, part.planning.budget) {
            self.list_served(part, standing.told, rows.as_slice())?;
            return Ok(());
        }
        let list = self.flowing.at_mut(part.number);
        if self.plans.recall(part, rows, list)? {
            return Ok(());
        }
        self.find(alloc, part, steps, rows)
    }
}
