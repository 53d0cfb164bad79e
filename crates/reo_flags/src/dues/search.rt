//! A search through times, one by one.
ghost use Rattle.std.specs.Prelude.{◌≡◌, ℕ, ◌<◌, ◌≤◌, ◌-◌, ◌/◌, ◌%◌, ◌^◌, min, length, slice_index_or};
ghost use Rattle.reo_flags.specs.dues.Next.{IsNextDue};

/// How many times a block has.
pub(crate) const BLOCK: usize = 64;

/// The first place of the block of a place.
#[inline(always)]
pub(crate) fn block_start(place: usize) -> usize
    ensures first { (k : ℕ) → k / 64 ≡ place / 64 → result ≤ k }
    ensures place { result ≡ place - place % 64 }
{
    place - place % BLOCK
}

/// The first place behind the block of a place, or the greatest number if that is less.
#[inline(always)]
pub(crate) fn block_end(place: usize) -> usize
    ensures behind { place < 2 ^ 64 - 1 → place < result }
    ensures same { (k : ℕ) → place ≤ k → k < result → k / 64 ≡ place / 64 }
    ensures whole { (k : ℕ) → k < 2 ^ 64 - 1 → k / 64 ≡ place / 64 → k < result }
{
    block_start(place).saturating_add(BLOCK)
}

/// The least place from `from` on, before `end`, whose time is `by` or sooner; `end` if there is
/// none.
#[inline(always)]
pub(crate) fn scan(times: &[u64], from: usize, end: usize, by: u64) -> usize
    requires { end ≤ length times.now }
    ensures { IsNextDue times.now from end by result }
{
    for place in from..end {
        if times[place] <= by {
            return place;
        }
    }
    end
}

/// The least of the times from `from` on, before `end`; the greatest number if there is none.
pub(crate) fn least_of(times: &[u64], from: usize, end: usize) -> u64
    requires { end ≤ length times.now }
    ensures { (k : ℕ) → from ≤ k → k < end → result ≤ slice_index_or times.now k 0 }
{
    let mut least = u64::MAX;
    for place in from..end {
        least = least.min(times[place]);
    }
    least
}
