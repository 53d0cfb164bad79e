//! Numbers for labels, in the order in which sides have them.
ghost use Rattle.std.specs.Prelude.{◌≡◌, ◌<◌, Some, None, IfOk, length, slice_index_or, slice_set, unwrap_or, replicate};
ghost use Rattle.reo_net_laws.specs.Knots.{AreNumbers};
ghost use Rattle.reo_net_laws.specs.KnotLabels.{AreInRange, same_label};

use reo_values::{List, NoMemory};
use std::alloc::Global;

/// The number of the knot of each side, and how many knots there are.
#[derive(Drop)]
pub(crate) struct Numbers {
    /// The number of each side's knot.
    pub(crate) numbers: Vec<usize>,
    /// How many knots there are.
    pub(crate) count: usize,
}

/// No number for each label.
fn none_known(alloc: Global, count: usize) -> Result<Vec<Option<usize>>, NoMemory>
    ensures { IfOk result (λ known. known.items ≡ replicate count None) }
{
    match vec![in alloc; None; count] {
        Ok(known) => Ok(known),
        Err(_) => Err(NoMemory),
    }
}

/// The number of a label, which is the next one where it has none yet.
fn number_of(known: &mut Vec<Option<usize>>, label: usize, next: usize) -> usize
    requires { label < length known.old.items }
    ensures number { result ≡ unwrap_or (slice_index_or known.old.items label None) next }
    ensures known { known.new.items ≡ slice_set known.old.items label (Some result) }
{
    let number = known[label].unwrap_or(next);
    known[label] = Some(number);
    number
}

/// Numbers the labels: a side whose label has no number yet begins the next knot.
pub(crate) fn number(alloc: Global, labels: &[usize]) -> Result<Numbers, NoMemory>
    requires { AreInRange labels.now }
    ensures { IfOk result (λ found.
        AreNumbers (same_label labels.now) (length labels.now) found.numbers.items found.count) }
{
    let mut known = none_known(alloc, labels.len())?;
    let mut numbers = List::new(alloc);
    let mut count = 0;
    for side in 0..labels.len() {
        let number = number_of(&mut known, labels[side], count);
        numbers.push(number)?;
        count = count.max(number + 1);
    }
    Ok(Numbers {
        numbers: numbers.into_vec(),
        count,
    })
}
