//! Steps that the kind and the type of an expression share.
ghost use Rattle.std.specs.Prelude.{◌≡◌, ◌&&◌, IfOk, option_map};
ghost use Rattle.reo_exprs.specs.Kinds.{twins_of, is_bool, joins};
ghost use Rattle.reo_exprs.specs.Typing.{provided};

use crate::kinds::{is_bool, joins};
use reo_values::{Kindred, NoMemory, copy_kindred};

/// The type, where the test holds.
pub fn provided(test: bool, kindred: Kindred) -> Option<Kindred>
    ensures { result ≡ provided test kindred }
{
    if test { Some(kindred) } else { None }
}

/// The type of the left parts, of a type of pairs. `NoMemory` means that more share it than can
/// be counted.
pub fn left_type(kindred: &Kindred) -> Result<Option<Kindred>, NoMemory>
    ensures { IfOk result (λ made. made ≡ option_map (λ t. t.left) (twins_of kindred.now)) }
{
    match kindred {
        Kindred::Pair(twins) => Ok(Some(copy_kindred(&twins.get().left)?)),
        _ => Ok(None),
    }
}

/// The type of the right parts, of a type of pairs. `NoMemory` means that more share it than can
/// be counted.
pub fn right_type(kindred: &Kindred) -> Result<Option<Kindred>, NoMemory>
    ensures { IfOk result (λ made. made ≡ option_map (λ t. t.right) (twins_of kindred.now)) }
{
    match kindred {
        Kindred::Pair(twins) => Ok(Some(copy_kindred(&twins.get().right)?)),
        _ => Ok(None),
    }
}

/// Whether an `if` may choose by the first type, from the other two.
pub fn may_choose(condition: &Kindred, yes: &Kindred, no: &Kindred) -> bool
    ensures { result ≡ (is_bool condition.now && joins yes.now no.now) }
{
    is_bool(condition) && joins(yes, no)
}
