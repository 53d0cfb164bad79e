//! The trait of what stands in a circuit.
ghost use Rattle.std.specs.Prelude.{◌≡◌, ℕ, ◌+◌, ◌<◌, ◌≤◌, ◌^◌, IsTrue, ◌↔◌, Option, IfOk, IsSome, Some, None, true, false};
ghost use Rattle.std.specs.Option.{option_copied};
ghost use Rattle.reo_values.specs.declared.value.Value.{Value as Item};
ghost use Rattle.reo_net_base.specs.declared.colouring.Chosen.{Chosen as Rows};
ghost use Rattle.reo_net_base.specs.declared.mark.Mark.TheVariants.{F};
ghost use Rattle.reo_net_base.specs.declared.form.Form.{Form as SideForm};
ghost use Rattle.reo_net_base.specs.Behaviour.{Behaviour, IsEndOf};
ghost use Rattle.reo_net_base.specs.Forms.{HasForm};
ghost use Rattle.reo_net_base.specs.Lasting.{Lasting, KeepsTables, LetsAllIn, GivesWhatItTakes, GivesFront, GivesOrigin};
ghost use Rattle.reo_net_base.specs.Lawful.{IsLawful, SameShape, TreatsAlike, IsQuiet};

use crate::colouring::Chosen;
use crate::form::Form;
use crate::mark::Mark;
use reo_values::{Kindred, NoMemory, Value};
use std::alloc::Global;

/// What stands in a circuit. Its ends, its sides and the rows of a side are numbered from 0.
///
/// Each method answers what the behaviour of the present state says.
pub trait Primitive: Drop {
    /// The primitive in its present state, as mathematics.
    ghost behaviour: { Self → Behaviour };

    /// The primitive after a round in which its sides had these rows and its mouth took this item
    /// in.
    ghost settled: { Self → Rows → Option Item → Self };

    /// The form of a side in the present state, where its table is of a form.
    ghost form: { Self → ℕ → Option SideForm };

    /// The item that the state alone gives, where this is told.
    ghost front: { Self → Option Item };

    /// What neither a round nor an offer changes.
    ghost lasting: { Self → Lasting };

    /// How many ends there are.
    fn ends(&self) -> usize
        ensures { result ≡ (behaviour self.now).ends };

    /// How many sides there are: one, or two where something is kept between a mouth and a tail.
    fn sides(&self) -> usize
        ensures { result ≡ (behaviour self.now).sides };

    /// The side of an end.
    fn side_of(&self, end: usize) -> usize
        requires { end < (behaviour self.now).ends }
        ensures { result ≡ (behaviour self.now).side_of end };

    /// Whether items enter the primitive at an end.
    fn takes_in(&self, end: usize) -> bool
        requires { end < (behaviour self.now).ends }
        ensures { result ≡ (behaviour self.now).takes_in end };

    /// Whether a side leads: its class is compared before those of all sides. Nothing that happens
    /// to the primitive changes it.
    fn leads(&self, side: usize) -> bool
        requires { side < (behaviour self.now).sides }
        ensures { result ≡ (behaviour self.now).leads side };

    /// How many rows the table of a side has, its jam row counted.
    fn rows(&self, side: usize) -> usize
        requires { side < (behaviour self.now).sides }
        ensures { result ≡ (behaviour self.now).rows side };

    /// What a row says of an end of its side.
    fn mark(&self, side: usize, row: usize, end: usize) -> Mark
        requires side { side < (behaviour self.now).sides }
        requires row { row < (behaviour self.now).rows side }
        requires end { IsEndOf (behaviour self.now) side end }
        ensures { result ≡ (behaviour self.now).mark side row end };

    /// The class of a row in the round of this number.
    fn class(&self, side: usize, row: usize, turn: u64) -> usize
        requires side { side < (behaviour self.now).sides }
        requires row { row < (behaviour self.now).rows side }
        ensures { result ≡ (behaviour self.now).class side row turn };

    /// How many groups the rows of a side stand in. The rows of a group say the same of each end,
    /// but that each may be apart at one end.
    fn groups(&self, side: usize) -> usize
        requires { side < (behaviour self.now).sides }
        ensures { result ≡ (behaviour self.now).groups side };

    /// The group of a row.
    fn group(&self, side: usize, row: usize) -> usize
        requires side { side < (behaviour self.now).sides }
        requires row { row < (behaviour self.now).rows side }
        ensures { result ≡ (behaviour self.now).group side row };

    /// What the rows of a group say of an end, but for those that are apart there.
    fn common(&self, side: usize, group: usize, end: usize) -> Mark
        requires side { side < (behaviour self.now).sides }
        requires group { group < (behaviour self.now).groups side }
        requires end { IsEndOf (behaviour self.now) side end }
        ensures { result ≡ (behaviour self.now).common side group end };

    /// The one end at which a row is not as its group, if there is one.
    fn apart(&self, side: usize, row: usize) -> Option<usize>
        requires side { side < (behaviour self.now).sides }
        requires row { row < (behaviour self.now).rows side }
        ensures { result ≡ (behaviour self.now).apart side row };

    /// Where an end gives with flow: the end whose taken item decides what is given, or `None`
    /// where the state alone decides.
    fn from(&self, side: usize, row: usize, end: usize) -> Option<usize>
        requires side { side < (behaviour self.now).sides }
        requires row { row < (behaviour self.now).rows side }
        requires end { IsEndOf (behaviour self.now) side end }
        requires gives { (behaviour self.now).takes_in end ≡ false }
        requires flows { (behaviour self.now).mark side row end ≡ F }
        ensures { result ≡ (behaviour self.now).from side row end };

    /// Whether a row lets an item in at an end that takes in.
    fn passes(&self, side: usize, row: usize, end: usize, item: &Value) -> bool
        requires side { side < (behaviour self.now).sides }
        requires row { row < (behaviour self.now).rows side }
        requires end { IsEndOf (behaviour self.now) side end }
        requires takes { (behaviour self.now).takes_in end ≡ true }
        ensures { result ≡ (behaviour self.now).passes side row end item.now };

    /// The item that a row gives at an end, where this item was taken at the end that decides.
    fn gives(
        &self,
        alloc: Global,
        side: usize,
        row: usize,
        end: usize,
        taken: Option<&Value>,
    ) -> Result<Value, NoMemory>
        requires side { side < (behaviour self.now).sides }
        requires row { row < (behaviour self.now).rows side }
        requires end { IsEndOf (behaviour self.now) side end }
        requires gives { (behaviour self.now).takes_in end ≡ false }
        requires flows { (behaviour self.now).mark side row end ≡ F }
        requires given { IsSome ((behaviour self.now).given side row end (option_copied taken)) }
        ensures { IfOk result
            (λ item. (behaviour self.now).given side row end (option_copied taken.entry)
            ≡ Some item) };

    /// Whether an item is the one that `gives` gives.
    fn agrees(
        &self,
        side: usize,
        row: usize,
        end: usize,
        taken: Option<&Value>,
        item: &Value,
    ) -> bool
        requires side { side < (behaviour self.now).sides }
        requires row { row < (behaviour self.now).rows side }
        requires end { IsEndOf (behaviour self.now) side end }
        requires gives { (behaviour self.now).takes_in end ≡ false }
        requires flows { (behaviour self.now).mark side row end ≡ F }
        ensures { IsTrue result
            ↔ ((behaviour self.now).given side row end (option_copied taken.entry)
            ≡ Some item.now) };

    /// The primitive goes on by the rows of its sides. The item is the one taken at a mouth that
    /// flows, and else `None`.
    fn settle(&mut self, rows: Chosen, taken: Option<Value>)
        ensures { self.new ≡ settled self.old rows taken };

    /// The form of a side in the present state, and `None` for a table of no form. Nothing is lost
    /// by `None` but speed.
    fn form(&self, side: usize) -> Option<Form>
        requires { side < (behaviour self.now).sides }
        ensures { result ≡ form self.now side };

    /// Whether a side may have another table after a round or an offer.
    fn varies(&self, side: usize) -> bool
        requires { side < (behaviour self.now).sides }
        ensures { result ≡ (lasting self.now).varies side };

    /// Whether each row of a side lets each item in, in each state.
    fn is_open(&self, side: usize) -> bool
        requires { side < (behaviour self.now).sides }
        ensures { result ≡ (lasting self.now).is_open side };

    /// Whether a round may change the primitive.
    fn keeps(&self) -> bool
        ensures { result ≡ (lasting self.now).keeps };

    /// Whether an end that gives what another end decides gives the item that is taken there.
    fn carries(&self) -> bool
        ensures { result ≡ (lasting self.now).carries };

    /// The item that each row gives where the state alone decides. `None` tells nothing.
    fn front(&self) -> Option<&Value>
        ensures { option_copied result ≡ front self.now };

    /// The type of what the state alone gives, in each state. `None` tells nothing.
    fn origin(&self) -> Option<&Kindred>
        ensures { option_copied result ≡ (lasting self.now).origin };

    /// Each state keeps the laws.
    ghost lawful: { (p : Self) → IsLawful (behaviour p) };

    /// A round leaves the shape.
    ghost settled_shape: { (p : Self) (rows : Rows) (taken : Option Item)
        → SameShape (behaviour p) (behaviour (settled p rows taken)) };

    /// A round leaves what is done with items.
    ghost settled_alike: { (p : Self) (rows : Rows) (taken : Option Item)
        → TreatsAlike (behaviour p) (behaviour (settled p rows taken)) };

    /// Rows without flow leave the state.
    ghost quiet: { (p : Self) (rows : Rows) → IsQuiet (behaviour p) rows
        → settled p rows None ≡ p };

    /// A form has the ends and the table of its side.
    ghost has_form: { (p : Self) (side : ℕ) (of : SideForm) → side < (behaviour p).sides
        → form p side ≡ Some of → HasForm of (behaviour p) side };

    ghost lets_all_in: { (p : Self) → LetsAllIn (lasting p) (behaviour p) };

    ghost carries_on: { (p : Self) → GivesWhatItTakes (lasting p) (behaviour p) };

    ghost gives_front: { (p : Self) → GivesFront (front p) (behaviour p) };

    ghost gives_origin: { (p : Self) → GivesOrigin (lasting p) (behaviour p) };

    /// What keeps nothing is as before after a round.
    ghost keeps_nothing: { (p : Self) (rows : Rows) (taken : Option Item)
        → (lasting p).keeps ≡ false → settled p rows taken ≡ p };

    ghost settled_lasting: { (p : Self) (rows : Rows) (taken : Option Item)
        → lasting (settled p rows taken) ≡ lasting p };

    ghost settled_tables: { (p : Self) (rows : Rows) (taken : Option Item)
        → KeepsTables (lasting p) (behaviour p) (behaviour (settled p rows taken)) };
}
