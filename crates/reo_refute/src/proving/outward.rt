//! The sides of a circuit that are still to be looked at in a branch, outward from one of them.
ghost use Rattle.std.specs.Prelude.{◌<◌, length};

use reo_net_base::Primitive;
use reo_net_circuit::Circuit;
use reo_refute_live::Column;
use reo_side_tables::{giver_side, taker_side};
use reo_values::{List, NoMemory};
use std::alloc::Global;

/// Whether a flag is set; none is, past the end.
fn is_set(flags: &List<bool>, index: usize) -> bool {
    match flags.get(index) {
        Some(flag) => *flag,
        None => false,
    }
}

/// Sets or clears a flag, unless it is past the end.
fn put(flags: &mut List<bool>, index: usize, flag: bool) {
    if index < flags.len() {
        *flags.at_mut(index) = flag;
    }
}

/// So many flags, none of them set.
fn no_flags(alloc: Global, count: usize) -> Result<List<bool>, NoMemory> {
    match vec![in alloc; false; count] {
        Ok(flags) => Ok(List::from_vec(flags)),
        Err(_) => Err(NoMemory),
    }
}

/// The side at the other end of a joint, or the side itself where both ends are its own.
fn across<P: Primitive>(circuit: &Circuit<P>, joint: usize, side: usize) -> usize
    requires { joint < length circuit.now.joints }
{
    let giver = giver_side(circuit, joint);
    if giver == side {
        taker_side(circuit, joint)
    } else {
        giver
    }
}

/// The joints of a side are not crossed any more.
fn uncross_at(columns: &[Column], crossed: &mut List<bool>) {
    for index in 0..columns.len() {
        put(crossed, columns[index].joint, false);
    }
}

/// A side that waits, and the joint at which it is looked at first.
#[derive(Clone, Copy)]
struct Queued {
    side: usize,
    joint: usize,
}

/// What stands in a list at a place, if something does.
fn waiting_at(list: &List<Queued>, index: usize) -> Option<Queued> {
    match list.get(index) {
        Some(waiting) => Some(*waiting),
        None => None,
    }
}

/// Where a side is looked at: at which joint first, how many of its ends were looked at since, and
/// from which of the values at the next.
#[derive(Clone, Copy)]
pub(crate) struct Glance {
    pub(crate) side: usize,
    pub(crate) joint: usize,
    pub(crate) ends: usize,
    pub(crate) place: usize,
}

/// The sides of a circuit that are still to be looked at in a branch. The first is looked at first,
/// then those at its joints, and so on outward; a side that was looked at waits again when a value
/// goes at the other end of one of its joints.
#[derive(Drop)]
pub(crate) struct Outward {
    /// The sides that came to wait, in their order.
    order: List<Queued>,
    /// How many of them do not wait any more.
    passed: usize,
    /// For each side whether it waits.
    waits: List<bool>,
    /// For each side whether it was met.
    is_met: List<bool>,
    /// The sides that were met.
    met: List<usize>,
    /// For each joint whether it was crossed from one of its sides.
    crossed: List<bool>,
    /// The joints that lead to a side that was met before: without them no path comes back.
    loops: List<usize>,
    /// The joint at which a value went last, if that was since the branch began.
    touched: Option<usize>,
    /// Where the first side that waits is looked at.
    ends: usize,
    place: usize,
}

impl Outward {
    /// No side waits, in a circuit of so many sides and joints. `NoMemory` is out of memory.
    pub(crate) fn new(alloc: Global, sides: usize, joints: usize) -> Result<Outward, NoMemory> {
        Ok(Outward {
            order: List::new(alloc),
            passed: 0,
            waits: no_flags(alloc, sides)?,
            is_met: no_flags(alloc, sides)?,
            met: List::new(alloc),
            crossed: no_flags(alloc, joints)?,
            loops: List::new(alloc),
            touched: None,
            ends: 0,
            place: 0,
        })
    }

    /// The joints of the sides that were met are not crossed any more.
    fn uncross(&mut self, tables: &List<List<Column>>) {
        while let Some(side) = self.met.pop() {
            put(&mut self.is_met, side, false);
            if side < tables.len() {
                uncross_at(tables.at(side).as_slice(), &mut self.crossed);
            }
        }
    }

    /// No side waits.
    fn leave_all(&mut self) {
        for index in self.passed..self.order.len() {
            if let Some(waiting) = waiting_at(&self.order, index) {
                put(&mut self.waits, waiting.side, false);
            }
        }
        self.order.clear();
        self.passed = 0;
        self.ends = 0;
        self.place = 0;
        self.touched = None;
    }

    /// A side waits, to be looked at from a joint on.
    fn wake(&mut self, side: usize, joint: usize) -> Result<(), NoMemory> {
        if is_set(&self.waits, side) {
            return Ok(());
        }
        self.order.push(Queued { side, joint })?;
        put(&mut self.waits, side, true);
        Ok(())
    }

    /// A side is met at a joint, and waits.
    fn meet(&mut self, side: usize, joint: usize) -> Result<(), NoMemory> {
        self.met.push(side)?;
        put(&mut self.is_met, side, true);
        self.wake(side, joint)
    }

    /// All is forgotten, and one side waits.
    pub(crate) fn begin(
        &mut self,
        tables: &List<List<Column>>,
        side: usize,
    ) -> Result<(), NoMemory> {
        self.uncross(tables);
        self.leave_all();
        self.loops.clear();
        self.meet(side, 0)
    }

    /// Where to look next, if some side waits.
    pub(crate) fn look(&self) -> Option<Glance> {
        match self.order.get(self.passed) {
            None => None,
            Some(waiting) => Some(Glance {
                side: waiting.side,
                joint: waiting.joint,
                ends: self.ends,
                place: self.place,
            }),
        }
    }

    /// The first side that waits is looked at from here on.
    pub(crate) fn stay(&mut self, ends: usize, place: usize) {
        self.ends = ends;
        self.place = place;
    }

    /// A joint is crossed from a side.
    fn cross<P: Primitive>(
        &mut self,
        circuit: &Circuit<P>,
        joint: usize,
        side: usize,
    ) -> Result<(), NoMemory> {
        if joint >= circuit.joint_count() || is_set(&self.crossed, joint) {
            return Ok(());
        }
        put(&mut self.crossed, joint, true);
        let other = across(circuit, joint, side);
        if is_set(&self.is_met, other) {
            self.loops.push(joint)
        } else {
            self.meet(other, joint)
        }
    }

    /// The first side that waits does so no longer. The sides at its joints are met.
    pub(crate) fn pass<P: Primitive>(
        &mut self,
        circuit: &Circuit<P>,
        tables: &List<List<Column>>,
        side: usize,
    ) -> Result<(), NoMemory> {
        put(&mut self.waits, side, false);
        self.passed = self.passed.saturating_add(1);
        self.ends = 0;
        self.place = 0;
        if side < tables.len() {
            for column in tables.at(side).as_slice() {
                self.cross(circuit, column.joint, side)?;
            }
        }
        Ok(())
    }

    /// Both sides of a joint wait.
    fn wake_both<P: Primitive>(
        &mut self,
        circuit: &Circuit<P>,
        joint: usize,
    ) -> Result<(), NoMemory> {
        if joint >= circuit.joint_count() {
            return Ok(());
        }
        self.wake(giver_side(circuit, joint), joint)?;
        self.wake(taker_side(circuit, joint), joint)
    }

    /// A value of a joint went at a side of it.
    pub(crate) fn dropped<P: Primitive>(
        &mut self,
        circuit: &Circuit<P>,
        joint: usize,
        side: usize,
    ) -> Result<(), NoMemory> {
        if joint >= circuit.joint_count() {
            return Ok(());
        }
        self.touched = Some(joint);
        let other = across(circuit, joint, side);
        if other == side {
            self.stay(0, 0);
        }
        self.wake(other, joint)
    }

    /// Of the values of a joint one alone is live.
    pub(crate) fn held<P: Primitive>(
        &mut self,
        circuit: &Circuit<P>,
        joint: usize,
    ) -> Result<(), NoMemory> {
        self.leave_all();
        self.wake_both(circuit, joint)
    }

    /// The joint at which a value went last, if that was since the branch began.
    pub(crate) fn touched(&self) -> Option<usize> {
        self.touched
    }

    /// The joints that close loops.
    pub(crate) fn loops(&self) -> &[usize] {
        self.loops.as_slice()
    }
}
