//! Which components are awake, which count, and which are not done.
ghost use Rattle.std.specs.Prelude.{◌≡◌, ◌<◌, false, true, IfOk, length, map, replicate, set, slice_index_or};
ghost use Rattle.reo_players.specs.Idle.{mark_of, marks_of as marks_of_all};
ghost use Rattle.reo_players.specs.Pacing.{player_in};

use crate::pacing::Paced;
use crate::player::Player;
use reo_flags::Flags;
use reo_values::NoMemory;
use std::alloc::Global;

/// Of one component, whether it is awake, whether it counts, and whether it is not done.
#[derive(Clone, Copy)]
pub struct Pace {
    pub awake: bool,
    pub counting: bool,
    pub left: bool,
}

impl Pace {
    /// The mark of a component.
    pub fn of(player: &Player) -> Pace
        ensures { result ≡ mark_of player.now }
    {
        Pace {
            awake: player.is_awake(),
            counting: player.counts(),
            left: !player.is_done(),
        }
    }

    /// Whether it is the same mark.
    pub fn is(self, other: Pace) -> bool
        ensures awake { result ≡ true → self.awake ≡ other.awake }
        ensures counting { result ≡ true → self.counting ≡ other.counting }
        ensures left { result ≡ true → self.left ≡ other.left }
    {
        self.awake == other.awake && self.counting == other.counting && self.left == other.left
    }
}

/// Of each component, whether it is awake, whether it counts, and whether it is not done.
#[derive(Drop)]
pub struct Paces {
    pub awake: Flags,
    pub counting: Flags,
    pub left: Flags,
}

impl Paces {
    /// Marks a component so.
    pub fn put(&mut self, component: usize, mark: Pace)
        requires awake { component < length self.old.awake }
        requires counting { component < length self.old.counting }
        requires left { component < length self.old.left }
        ensures awake { self.new.awake ≡ set self.old.awake component mark.awake }
        ensures counting { self.new.counting ≡ set self.old.counting component mark.counting }
        ensures left { self.new.left ≡ set self.old.left component mark.left }
    {
        self.awake.put(component, mark.awake);
        self.counting.put(component, mark.counting);
        self.left.put(component, mark.left);
    }

    /// Marks a component so, of which this was the mark.
    #[inline(always)]
    pub fn change(&mut self, component: usize, before: Pace, mark: Pace)
        requires awake { component < length self.old.awake }
        requires counting { component < length self.old.counting }
        requires left { component < length self.old.left }
        requires was_awake { slice_index_or self.old.awake component false ≡ before.awake }
        requires was_counting { slice_index_or self.old.counting component false ≡ before.counting }
        requires was_left { slice_index_or self.old.left component false ≡ before.left }
        ensures awake { self.new.awake ≡ set self.old.awake component mark.awake }
        ensures counting { self.new.counting ≡ set self.old.counting component mark.counting }
        ensures left { self.new.left ≡ set self.old.left component mark.left }
    {
        if !mark.is(before) {
            self.put(component, mark);
        }
    }
}

/// Marks of so many components, none of which is marked. `NoMemory` is out of memory.
fn no_marks(alloc: Global, count: usize) -> Result<Paces, NoMemory>
    ensures awake { IfOk result (λ made. made.awake ≡ replicate count false) }
    ensures counting { IfOk result (λ made. made.counting ≡ replicate count false) }
    ensures left { IfOk result (λ made. made.left ≡ replicate count false) }
{
    let awake = Flags::new(alloc, count, false)?;
    let counting = Flags::new(alloc, count, false)?;
    let left = Flags::new(alloc, count, false)?;
    Ok(Paces {
        awake,
        counting,
        left,
    })
}

/// The marks of components. `NoMemory` is out of memory.
pub fn marks_of(alloc: Global, players: &[Paced]) -> Result<Paces, NoMemory>
    ensures { IfOk result (λ made. made ≡ marks_of_all (map player_in players.now)) }
{
    let mut marks = no_marks(alloc, players.len())?;
    for component in 0..players.len() {
        marks.put(component, Pace::of(&players[component].player));
    }
    Ok(marks)
}
