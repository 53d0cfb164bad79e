//! Declarations from the last to the first.
ghost use Rattle.std.specs.Prelude.{◌≡◌, reverse};

use reo_trees::Declaration;
use reo_values::List;

/// The declarations from the last to the first.
pub(crate) fn turned(declarations: List<Declaration>) -> List<Declaration>
    ensures { result ≡ reverse declarations }
{
    let mut declarations = declarations.into_vec();
    declarations.reverse();
    List::from_vec(declarations)
}
