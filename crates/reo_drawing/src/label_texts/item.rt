//! Items whose type is not at hand.
ghost use Rattle.std.specs.Prelude.{◌≡◌, ◌++◌, OnOk};
ghost use Rattle.reo_drawing.specs.label_texts.Items.{item_text};

use reo_values::{Bytes, NoMemory, Value, append_decimal, append_number, append_quoted};
use std::alloc::Global;

/// Adds an item as it is written where its type is not at hand: a name by its place among the names
/// of its type, from 0, behind `#`, and all others as in a trace. `NoMemory` is out of memory.
pub fn append_item(alloc: Global, text: &mut Bytes, item: &Value) -> Result<(), NoMemory>
    ensures { OnOk result (text.new ≡ text.old ++ item_text item.now) }
{
    match item {
        Value::Unit => text.append(b"unit"),
        Value::Bool(true) => text.append(b"true"),
        Value::Bool(false) => text.append(b"false"),
        Value::Int(number) => append_number(alloc, text, *number),
        Value::Sym(place) => {
            text.append(b"#")?;
            append_decimal(alloc, text, *place as u128)
        }
        Value::Text(bytes) => append_quoted(text, bytes.get().as_slice()),
        Value::Pair(couple) => {
            let couple = couple.get();
            text.append(b"(")?;
            append_item(alloc, text, &couple.left)?;
            text.append(b",")?;
            append_item(alloc, text, &couple.right)?;
            text.append(b")")
        }
    }
}
