//! Whether joints are wide, looked at before a knot is weighed.
ghost use Rattle.std.specs.Prelude.{◌≡◌, ◌<◌, ℕ, false, IsTrue, length};
ghost use Rattle.reo_reach.specs.Supplied.{is_wide};

use reo_reach::Supply;

/// Whether no joint is wide.
pub fn none_wide(supply: &Supply) -> bool
    ensures { IsTrue result → (j : ℕ) → j < length supply.now.items → is_wide supply.now j ≡ false }
{
    for joint in 0..supply.lists().len() {
        if supply.is_wide(joint) {
            return false;
        }
    }
    true
}
