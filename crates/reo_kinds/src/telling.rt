//! What kinds tell besides their tables.
ghost use Rattle.std.specs.Prelude.{◌≡◌};
ghost use Rattle.reo_kinds.specs.Telling.{varies_at, keeps_some};

use crate::kind::Kind;

/// Whether the table of a side may become another.
pub fn varies(kind: &Kind, side: usize) -> bool
    ensures { result ≡ varies_at kind.now side }
{
    match kind {
        Kind::Writer(_) | Kind::Taker(_) | Kind::Store(_) | Kind::Quota(_) => true,
        Kind::Shift(_) | Kind::Variable(_) => !(side == 0),
        _ => false,
    }
}

/// Whether something is kept between rounds.
pub fn keeps(kind: &Kind) -> bool
    ensures { result ≡ keeps_some kind.now }
{
    matches!(
        kind,
        Kind::Writer(_)
            | Kind::Taker(_)
            | Kind::Store(_)
            | Kind::Shift(_)
            | Kind::Variable(_)
            | Kind::Quota(_)
    )
}
