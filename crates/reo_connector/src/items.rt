//! Items of ports, from texts and as texts.
ghost use Rattle.std.specs.Prelude.{◌≡◌, ◌≢◌, IfOk, IsErrOf};
ghost use Rattle.reo_values.specs.declared.value.Value.{Value as Item};
ghost use Rattle.reo_connector.specs.Items.{HasText, item_fault, text_at};

use crate::connector::Connector;
use reo_values::{Bytes, NoMemory, ReadFault, Value, read_value, value_text};
use std::alloc::Global;

/// Why a text gives no item.
#[derive(Clone, Copy, Debug, PartialEq, Eq)]
pub enum ItemFault {
    /// No item of the port's type has this text, or there is no such port.
    NoItem,
    /// Out of memory.
    NoMemory,
}

/// Why reading an item failed.
fn item_fault(fault: ReadFault) -> ItemFault
    ensures { result ≡ item_fault fault }
{
    match fault {
        ReadFault::NotALiteral => ItemFault::NoItem,
        ReadFault::NoMemory => ItemFault::NoMemory,
    }
}

impl Connector {
    /// The item of a port's type that has this text, as traces write it: `3`, `-1`, `true`, `red`,
    /// `"a text"`, `(1,2)` or `unit`.
    ///
    /// # Errors
    ///
    /// `NoItem`: exactly where no item of the type has this text, or there is no port of the
    /// number. `NoMemory` is out of memory.
    pub fn item(&self, alloc: Global, port: usize, text: &[u8]) -> Result<Value, ItemFault>
        ensures found { IfOk result (HasText self.now port text.now) }
        ensures none { IsErrOf result ItemFault.NoItem
            → (item : Item) → HasText self.now port text.now item → ⊥ }
    {
        self.known();
        let Some(port) = self.ports.list.get(port) else {
            return Err(ItemFault::NoItem);
        };
        match read_value(alloc, text, &port.kindred) {
            Ok(item) => Ok(item),
            Err(fault) => Err(item_fault(fault)),
        }
    }

    /// The text of an item at a port, as traces write it; no bytes where there is no port of the
    /// number, or the item is of another kind than its type. `NoMemory` is out of memory.
    pub fn text(&self, alloc: Global, port: usize, item: &Value) -> Result<Bytes, NoMemory>
        ensures { IfOk result (λ text. text ≡ text_at self.now port item.now) }
    {
        match self.ports.list.get(port) {
            Some(port) => value_text(alloc, item, &port.kindred),
            None => Ok(Bytes::new(alloc)),
        }
    }
}
