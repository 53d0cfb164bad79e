//! Lists in which no item stands twice.
ghost use Rattle.std.specs.Prelude.{◌≡◌, ◌<◌, ◌≤◌, ◌↔◌, IsTrue, OnOk, Contains, length, nat_lt};
ghost use Rattle.reo_reach.specs.Added.{AreAdded};

use reo_values::{List, NoMemory, Value, is_among, same_item};

/// Whether there are more than 256 items.
pub(crate) fn is_full(items: &[Value]) -> bool
    ensures { result ≡ nat_lt 256 (length items.now) }
{
    items.len() > 256
}

/// Adds an item to a list that is not full, unless it is there.
pub(crate) fn add(items: &mut List<Value>, item: Value) -> Result<(), NoMemory>
    requires { length items.old ≤ 256 }
    ensures { OnOk result (AreAdded items.old items.new (λ x. x ≡ item)) }
{
    if is_among(items.as_slice(), &item) {
        return Ok(());
    }
    items.push(item)
}
