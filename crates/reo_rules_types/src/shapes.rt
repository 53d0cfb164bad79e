//! The numbers of written types.
ghost use Rattle.std.specs.Prelude.{◌≡◌, ◌<◌, length, slice_get, Some, IfOk, OnOk};
ghost use Rattle.reo_rules.specs.Types.{resolved};
ghost use Rattle.reo_rules_types.specs.Cells.{Keeps};
ghost use Rattle.reo_rules_types.specs.Scoped.{typed, AreKnown};

use crate::cell::TypeParts;
use crate::scope::Scope;
use crate::types::TypeStore;
use reo_trees::Shape;
use reo_values::NoMemory;
use std::alloc::Global;

/// The number of a written type by the declared types, which is added where it is not there. All
/// other types keep their numbers. `NoMemory` means out of memory.
pub(crate) fn number_of(
    alloc: Global,
    types: &mut TypeStore,
    declared: &Scope,
    shape: &Shape,
) -> Result<usize, NoMemory>
    requires { AreKnown types.old declared.now }
    ensures keeps { OnOk result (Keeps types.old types.new) }
    ensures number { IfOk result
        (λ n. slice_get types.new n ≡ Some (resolved (typed types.old declared.now) shape.now)) }
{
    match shape {
        Shape::Unit => types.put(alloc, TypeParts::Unit),
        Shape::Bool => types.put(alloc, TypeParts::Bool),
        Shape::Int(low, high) => types.put(alloc, TypeParts::Int(*low, *high)),
        Shape::Sym(names) => types.put_names(alloc, names.get().as_slice()),
        Shape::Text(most) => types.put(alloc, TypeParts::Text(*most)),
        Shape::Named(name) => Ok(declared.find(name.as_slice())),
        Shape::Pair(pair) => {
            let pair = pair.get();
            let left = number_of(alloc, types, declared, &pair.left.shape)?;
            let right = number_of(alloc, types, declared, &pair.right.shape)?;
            types.put(alloc, TypeParts::Pair(left, right))
        }
    }
}
