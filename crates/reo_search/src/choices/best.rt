//! The best list of numbers so far.
ghost use Rattle.std.specs.Prelude.{◌↔◌, IsTrue};
ghost use Rattle.reo_search.specs.choices.Best.{IsBefore, IsKept};

use reo_values::List;

/// Whether a list stands before the best so far, of which there may be none.
pub(crate) fn is_before(found: &List<usize>, best: &Option<List<usize>>) -> bool
    ensures { IsTrue result ↔ IsBefore found.now best.now }
{
    match best {
        None => true,
        Some(best) => found.as_slice().cmp(best.as_slice()).is_lt(),
    }
}

/// Keeps a list that stands before the best so far.
pub(crate) fn keep(best: &mut Option<List<usize>>, found: List<usize>)
    ensures { IsKept best.old found best.new }
{
    if is_before(&found, best) {
        *best = Some(found);
    }
}
