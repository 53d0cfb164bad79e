//! Types as trees, for programs that keep the bounds of types.
ghost use Rattle.std.specs.Prelude.{◌≡◌, ◌<◌, length, slice_get, nat_lt, Some, IfOk};
ghost use Rattle.reo_rules.specs.Types.{depth_of};
ghost use Rattle.reo_rules_types.specs.Cells.{type_at};

use crate::cell::TypeParts;
use crate::types::TypeStore;
use reo_values::{Kindred, NoMemory, Shared, Twins, copy_kindred};
use std::alloc::Global;

/// Whether pairs are nested more than so many deep in a type.
pub(crate) fn is_deeper(types: &TypeStore, number: usize, levels: usize) -> bool
    requires { number < length types.now }
    ensures { result ≡ nat_lt levels (depth_of (type_at types.now number)) }
{
    match types.cell(number) {
        TypeParts::Pair(left, right) => {
            if levels == 0 {
                return true;
            }
            is_deeper(types, *left, levels - 1) || is_deeper(types, *right, levels - 1)
        }
        _ => false,
    }
}

/// A type as a tree, in which names are shared with the table. `NoMemory` means out of memory.
pub(crate) fn tree_of(alloc: Global, types: &TypeStore, number: usize) -> Result<Kindred, NoMemory>
    requires { number < length types.now }
    ensures { IfOk result (λ made. made ≡ type_at types.now number) }
{
    match types.cell(number) {
        TypeParts::Pair(left, right) => {
            let left = tree_of(alloc, types, *left)?;
            let right = tree_of(alloc, types, *right)?;
            Ok(Kindred::Pair(Shared::new(alloc, Twins { left, right })?))
        }
        _ => copy_kindred(types.leaf(number)),
    }
}
