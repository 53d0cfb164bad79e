//! Lists of lists.
ghost use Rattle.std.specs.Prelude.{◌≡◌, [], IfOk, replicate};

use crate::{List, NoMemory};
use std::alloc::Global;

/// So many empty lists. `NoMemory` is out of memory.
pub fn empty_lists<T: Drop>(alloc: Global, count: usize) -> Result<List<List<T>>, NoMemory>
    ensures { IfOk result (λ lists. lists ≡ replicate count []) }
{
    let mut lists = List::new(alloc);
    for _ in 0..count {
        lists.push(List::new(alloc))?;
    }
    Ok(lists)
}
