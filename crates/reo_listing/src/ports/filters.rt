//! The first filter of a circuit.
ghost use Rattle.std.specs.Prelude.{◌≡◌, MatchOption};
ghost use Rattle.reo_open.specs.Opened.{is_filter, HasNoFilter};
ghost use Rattle.reo_listing.specs.base.Listed.{IsFirstFilter};

use reo_kinds::Kind;

/// Whether a kind is a filter.
fn is_filter(kind: &Kind) -> bool
    ensures { result ≡ is_filter kind.now }
{
    matches!(kind, Kind::Filter(_))
}

/// The first filter among some kinds, or `None` exactly where there is none. This takes no memory.
pub fn first_filter(kinds: &[Kind]) -> Option<usize>
    ensures { MatchOption result (HasNoFilter kinds.now) (IsFirstFilter kinds.now) }
{
    for index in 0..kinds.len() {
        if is_filter(&kinds[index]) {
            return Some(index);
        }
    }
    None
}
