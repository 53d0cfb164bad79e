//! What is known between items: how much was counted, and how much may still be copied.
ghost use Rattle.std.specs.Prelude.{◌≡◌, ◌≤◌, [], ◌∷◌};
ghost use Rattle.reo_expand.specs.base.Steps.Step.{counted as a_count};
ghost use Rattle.reo_expand.specs.base.Judged.{IsWalked};

use crate::base::ExpandFault;
use crate::parts::Room;

/// The most items and turns.
const MOST_STEPS: u32 = 65_536;

/// How many items and turns there were, and the room that is left.
#[derive(Drop)]
pub struct Walk {
    pub count: u32,
    pub room: Room,
}

impl Walk {
    /// No item yet.
    pub fn new() -> Walk
        ensures { result.count ≡ 0 }
    {
        Walk {
            count: 0,
            room: Room::new(),
        }
    }

    /// So many more, or `TooMany`, exactly where the count passes 65,536.
    pub fn counted(&mut self, more: u32) -> Result<(), ExpandFault>
        requires small { self.old.count ≤ 65536 }
        requires few { more ≤ 65536 }
        ensures walked { IsWalked self.old.count (a_count more ∷ []) self.new.count result }
        ensures small { self.new.count ≤ 65536 }
    {
        let count = self.count + more;
        if MOST_STEPS < count {
            return Err(ExpandFault::TooMany);
        }
        self.count = count;
        Ok(())
    }
}
