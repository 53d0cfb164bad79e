ghost use Rattle.std.specs.Prelude.{◌≡◌, ◌<◌, length, EachIndex, IfOk, slice_index};
ghost use Rattle.reo_net_base.specs.order.Links.{AreLinks};

use std::alloc::{AllocError, Global};

/// The arrows at each side, linked from the last to the first.
///
/// `ends` has the side of each arrow. `first` has for each side one more than the last arrow there,
/// and `next` for each arrow one more than the one before it at its side; 0 is none.
#[derive(Drop)]
pub struct Links {
    pub ends: Vec<usize>,
    pub first: Vec<usize>,
    pub next: Vec<usize>,
    ghost are: { AreLinks ends.items first.items next.items },
}

/// Links the arrows at each side.
pub fn link(alloc: Global, ends: &[usize], sides: usize) -> Result<Links, AllocError>
    requires { EachIndex ends.now (λ j. slice_index ends.now j < sides) }
    ensures ends { IfOk result (λ links. links.ends.items ≡ ends.now) }
    ensures sides { IfOk result (λ links. length links.first.items ≡ sides) }
{
    let mut first = vec![in alloc; 0; sides]?;
    let mut next = Vec::new(alloc);
    for arrow in 0..ends.len() {
        let side = ends[arrow];
        next.push(first[side])?;
        first[side] = arrow + 1;
    }
    let ends = copied(alloc, ends)?;
    Ok(Links { ends, first, next })
}

/// The same numbers again.
pub fn copied(alloc: Global, numbers: &[usize]) -> Result<Vec<usize>, AllocError>
    ensures { IfOk result (λ copy. copy.items ≡ numbers.now) }
{
    numbers.iter().copied().collect(alloc)
}
