//! What is remembered of the parts of a circuit.
ghost use Rattle.std.specs.Prelude.{◌≡◌, ◌<◌, ◌≤◌, ◌++◌, ◌∷◌, ℕ, true, false, [], Ok, IfOk, OnErr, OnOk, IfSome, length, slice_index, slice_index_or};
ghost use Rattle.reo_net_base.specs.Net.{net_of};
ghost use Rattle.reo_net_base.specs.Sides.{side_count};
ghost use Rattle.reo_flows.specs.flowing.Flowing.{AreFlowingOf};
ghost use Rattle.reo_item_bounds.specs.Bounds.{HasBounds};
ghost use Rattle.reo_weights.specs.still.Joining.{HasFirst};
ghost use Rattle.reo_planning.specs.PartOf.{IsPartOf, IsPlannedAt, in_part, net_at, net_in};
ghost use Rattle.reo_part_plans.specs.Remembered.{AreNew, AreAllRemembered, IsFoundAt, IsRecalled, StayOrGo};

use crate::entry::{RememberedRows, rows_at, with_room};
use crate::given::{are_given, deciding};
use crate::looks::{Look, is_key, look_at_all};
use crate::searching::find;
use reo_flows::copy_over;
use reo_net_base::{Form, Primitive};
use reo_net_circuit::Circuit;
use reo_planning::{PartOf, Planning};
use reo_values::{List, NoMemory};
use std::alloc::Global;
use std::marker::Model;

/// The most entries of a part without mergers.
const MOST: usize = 256;

/// The most looks and items that the entries of a part without mergers have together.
const ROOM: usize = 65_536;

/// The same of any part.
const MOST_ROOM: usize = 1_048_576;

/// How many times more nothing may be found of a part without mergers than something, before it
/// rests.
const TRIES: usize = 176;

/// How many times a part that rests is asked for, before it begins again.
const REST: usize = 4_096;

/// What is remembered of a part: entries, for each the one that came after it the last time, the
/// one that came last, and how many times more nothing was found than something. A part rests while
/// these are too many: then it has no entries, and each time that it is asked for is counted too.
/// How many are too many follows the greatest merger of the part, since it takes so many rounds
/// until the merger begins again with the same input.
#[derive(Drop)]
pub struct RememberedPart {
    pub(crate) entries: List<RememberedRows>,
    pub(crate) after: List<usize>,
    pub(crate) last: usize,
    pub(crate) misses: usize,
    pub(crate) inputs: usize,
}

/// The rows of the first assignments of parts, remembered by the states of the parts, each for as
/// long as the circuit has its shape. Of a part that is full all is forgotten, and a part whose
/// states do not come again rests for a while.
#[derive(Drop)]
pub struct Remembered {
    parts: List<RememberedPart>,
    key: List<Look>,
}

impl Model for Remembered {
    ghost use Rattle.std.specs.Prelude.{List};
    ghost use Rattle.reo_part_plans.specs.declared.plans.RememberedPart.{RememberedPart as OfPart};
    ghost use Rattle.std.specs.Coded.{codes};
    ghost use Rattle.reo_values.specs.contracts.value.Value as item;

    ghost Value = { List OfPart };

    ghost coded = { Prim.hlevel (codes, item.the_row.coded) };

    ghost view = { λ p. p.parts };
}

/// How many inputs the greatest merger has among some sides, or 0 where there is none.
fn most_inputs<P: Primitive>(circuit: &Circuit<P>, sides: &[usize]) -> usize
    requires { (m : ℕ) → m < length sides.now
        → slice_index sides.now m < side_count (net_of P.behaviour circuit.now) }
{
    circuit.known();
    let mut most = 0;
    for index in 0..sides.len() {
        let owner = circuit.owner(sides[index]);
        let form = circuit.primitive(owner.primitive).form(owner.side);
        if let Some(Form::Merging(branches)) = form {
            most = branches.count.max(most);
        }
    }
    most
}

impl RememberedPart {
    /// Of which nothing is remembered yet.
    fn new(alloc: Global) -> RememberedPart
        ensures { result.entries ≡ [] }
    {
        RememberedPart {
            entries: List::new(alloc),
            after: List::new(alloc),
            last: 0,
            misses: 0,
            inputs: 0,
        }
    }

    /// How many rounds of the greatest merger are waited for.
    fn turns(&self) -> usize {
        self.inputs.saturating_mul(2)
    }

    /// How many times more nothing may be found than something, before the part rests.
    fn tries(&self) -> usize {
        TRIES.saturating_add(self.turns())
    }

    /// Whether nothing is remembered of it for now.
    fn is_resting(&self) -> bool {
        self.misses >= self.tries()
    }

    /// Forgets all entries.
    fn forget(&mut self)
        ensures { self.new.entries ≡ [] }
    {
        self.entries.clear();
        self.after.clear();
    }

    /// Forgets all entries, and rests from now on.
    fn rest(&mut self)
        ensures { self.new.entries ≡ [] }
    {
        self.forget();
        self.misses = self.tries();
    }

    /// Notes that nothing was found. A part with too many of these rests, and one that has rested
    /// begins again.
    fn miss(&mut self)
        ensures { StayOrGo self.old.entries self.new.entries }
    {
        let tries = self.tries();
        self.misses = self.misses.saturating_add(1);
        if self.misses == tries {
            self.forget();
        } else if self.misses >= tries.saturating_add(REST) {
            self.misses = 0;
        }
    }

    /// Forgets all entries where one more of so many looks and items is too much. The greatest
    /// merger of the part has so many inputs.
    fn make_room(&mut self, inputs: usize, size: usize)
        ensures { StayOrGo self.old.entries self.new.entries }
    {
        self.inputs = inputs;
        let count = self.entries.len();
        let most = MOST.saturating_add(self.turns());
        let room = ROOM.max(self.turns().saturating_mul(size)).min(MOST_ROOM);
        if count >= most || count.saturating_mul(size) >= room {
            self.forget();
        }
    }

    /// Notes that the entry of this place came after the one that came last.
    fn follow(&mut self, place: usize)
        ensures { self.new.entries ≡ self.old.entries }
    {
        if self.last < self.after.len() {
            *self.after.at_mut(self.last) = place;
        }
        self.last = place;
    }

    /// Adds an entry, which comes after the one that came last.
    fn add(&mut self, entry: RememberedRows) -> Result<(), NoMemory>
        ensures added { OnOk result (self.new.entries ≡ self.old.entries ++ entry ∷ []) }
        ensures refused { OnErr result (self.new.entries ≡ self.old.entries) }
    {
        let place = self.entries.len();
        self.after.push(0)?;
        self.entries.push(entry)?;
        self.follow(place);
        Ok(())
    }

    /// The place of the entry that came after the one that came last, the last time, if there is
    /// any entry.
    fn next(&self) -> Option<usize>
        ensures { IfSome result (λ place. place < length self.now.entries) }
    {
        if self.last >= self.after.len() {
            return None;
        }
        let next = *self.after.at(self.last);
        if next < self.entries.len() {
            Some(next)
        } else {
            None
        }
    }

    /// The place of the entry with the key that some sides have in the round of a number, and whose
    /// items the state gives there, if there is one. The one that is next is tried while the sides
    /// are looked at; for the others the key is written down first.
    fn place_of<P: Primitive>(
        &self,
        circuit: &Circuit<P>,
        sides: &[usize],
        turn: u64,
        key: &mut List<Look>,
    ) -> Result<Option<usize>, NoMemory>
        requires sides { (m : ℕ) → m < length sides.now
            → slice_index sides.now m < side_count (net_of P.behaviour circuit.now) }
        requires turn { 1 ≤ turn }
        ensures { IfOk result (λ found. IfSome found
            (IsFoundAt (net_of P.behaviour circuit.now) sides.now turn self.now.entries)) }
    {
        let Some(next) = self.next() else {
            return Ok(None);
        };
        let entry = self.entries.at(next);
        let items = entry.items.as_slice();
        if (items.len() == 0 || are_given(circuit, sides, items))
            && is_key(circuit, sides, turn, entry.key.as_slice())
        {
            return Ok(Some(next));
        }
        if !look_at_all(circuit, sides, turn, key)? {
            return Ok(None);
        }
        Ok(find(&self.entries, circuit, sides, key.as_slice(), next))
    }

    /// Writes the rows of the entry with the key that some sides have in the round of a number and
    /// the joints that flow by them down, if there is one that weighs no more than the budget
    /// allows. The answer is whether it was done. `NoMemory` is out of memory.
    fn recall<P: Primitive>(
        &mut self,
        planning: &Planning<'_, P>,
        sides: &[usize],
        key: &mut List<Look>,
        rows: &mut List<u32>,
        flowing: &mut List<usize>,
    ) -> Result<bool, NoMemory>
        requires sides { (m : ℕ) → m < length sides.now
            → slice_index sides.now m < side_count (net_in P.behaviour planning.now) }
        requires turn { 1 ≤ planning.now.turn }
        requires rows { length rows.old ≡ side_count (net_in P.behaviour planning.now) }
        ensures entries { StayOrGo self.old.entries self.new.entries }
        ensures same { result ≡ Ok false → rows.new ≡ rows.old }
        ensures found { result ≡ Ok true → IsRecalled (net_in P.behaviour planning.now) sides.now
            planning.now.turn planning.now.budget self.old.entries
            rows.old rows.new flowing.new }
    {
        let place = self.place_of(planning.circuit, sides, planning.turn, key)?;
        let Some(place) = place else {
            self.miss();
            return Ok(false);
        };
        self.follow(place);
        let entry = self.entries.at(place);
        if !entry.serves(sides, planning.budget) {
            self.miss();
            return Ok(false);
        }
        self.misses = self.misses.saturating_sub(1);
        entry.write_down(sides, rows, flowing)?;
        Ok(true)
    }
}

impl Remembered {
    /// For so many parts, of which nothing is remembered yet. `NoMemory` is out of memory.
    pub fn new(alloc: Global, parts: usize) -> Result<Remembered, NoMemory>
        ensures { IfOk result (AreNew parts) }
    {
        let mut made = List::new(alloc);
        for _ in 0..parts {
            made.push(RememberedPart::new(alloc))?;
        }
        Ok(Remembered {
            parts: made,
            key: List::new(alloc),
        })
    }

    /// Writes the rows of the first assignment of a part down, and the joints of the part that flow
    /// by them, if they are remembered from a round in which the part was in the same state, and is
    /// surely within the budget. The answer is whether it was done.
    ///
    /// # Errors
    ///
    /// `NoMemory` is out of memory.
    pub fn recall<P: Primitive>(
        &mut self,
        part: &PartOf<'_, P>,
        rows: &mut List<u32>,
        flowing: &mut List<usize>,
    ) -> Result<bool, NoMemory>
        requires part { IsPartOf (net_at P.behaviour part.now) part.now }
        requires turn { 1 ≤ part.now.planning.now.turn }
        requires plans { let knots = part.now.planning.now.knots.now in
            AreAllRemembered (net_at P.behaviour part.now) knots self.old }
        requires rows { length rows.old ≡ side_count (net_at P.behaviour part.now) }
        ensures plans { let knots = part.now.planning.now.knots.now in
            AreAllRemembered (net_at P.behaviour part.now) knots self.new }
        ensures recalled { let net = net_at P.behaviour part.now in
            result ≡ Ok true → IsPlannedAt net part.now rows.old rows.new }
        ensures flowing { let net = net_at P.behaviour part.now in
            result ≡ Ok true → AreFlowingOf net (in_part part.now) rows.new flowing.new }
        ensures same { result ≡ Ok false → rows.new ≡ rows.old }
    {
        part.planning.circuit.known();
        let _order = part.planning.circuit.order();
        let sides = part.planning.knots.sides(part.number);
        let key = &mut self.key;
        let plans = self.parts.at_mut(part.number);
        plans.recall(part.planning, sides, key, rows, flowing)
    }

    /// Remembers the rows of the first assignment of a part for each round in which the part is in
    /// the state in which it is now, with the joints of the part that flow by them, and how many
    /// choices of values its loop joints have at most. Where some row does not let each item in,
    /// the items that the state gives are part of it. Nothing is remembered where they are not
    /// told, or while the part rests.
    ///
    /// # Errors
    ///
    /// `NoMemory` is out of memory.
    pub fn remember<P: Primitive>(
        &mut self,
        alloc: Global,
        part: &PartOf<'_, P>,
        choices: u64,
        rows: &[u32],
        flowing: &[usize],
    ) -> Result<(), NoMemory>
        requires part { IsPartOf (net_at P.behaviour part.now) part.now }
        requires turn { 1 ≤ part.now.planning.now.turn }
        requires choices { HasBounds (net_at P.behaviour part.now) (in_part part.now) choices }
        requires plans { let knots = part.now.planning.now.knots.now in
            AreAllRemembered (net_at P.behaviour part.now) knots self.old }
        requires one_row { length rows.now ≡ side_count (net_at P.behaviour part.now) }
        requires first { let planning = part.now.planning.now in
            HasFirst (net_at P.behaviour part.now)
            planning.knots.now.numbers planning.turn rows.now part.now.number }
        requires flowing { AreFlowingOf (net_at P.behaviour part.now)
            (in_part part.now) rows.now flowing.now }
        ensures plans { let knots = part.now.planning.now.knots.now in
            AreAllRemembered (net_at P.behaviour part.now) knots self.new }
    {
        let planning = part.planning;
        planning.circuit.known();
        let sides = planning.knots.sides(part.number);
        if self.parts.at(part.number).is_resting() {
            return Ok(());
        }
        let Some(items) = deciding(alloc, planning.circuit, sides)? else {
            self.parts.at_mut(part.number).rest();
            return Ok(());
        };
        let size = sides.len().saturating_add(items.len());
        let mut key = with_room(alloc, sides.len())?;
        if !look_at_all(planning.circuit, sides, planning.turn, &mut key)? {
            self.parts.at_mut(part.number).rest();
            return Ok(());
        }
        let rows = rows_at(alloc, sides, rows)?;
        let mut joints = with_room(alloc, flowing.len())?;
        copy_over(&mut joints, flowing)?;
        let entry = RememberedRows {
            key,
            items,
            rows,
            flowing: joints,
            choices,
        };
        let inputs = most_inputs(planning.circuit, sides);
        let plans = self.parts.at_mut(part.number);
        plans.make_room(inputs, size);
        plans.add(entry)
    }
}
