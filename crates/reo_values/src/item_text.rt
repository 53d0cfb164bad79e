//! The text of an item.
ghost use Rattle.std.specs.Prelude.{◌≡◌, ◌++◌, IfOk, OnOk};
ghost use Rattle.reo_values.specs.ItemText.{text_of};

use crate::append::{append_number, append_quoted};
use crate::{Bytes, Kindred, NoMemory, Value};
use std::alloc::Global;

fn append_text(
    alloc: Global,
    out: &mut Bytes,
    item: &Value,
    kindred: &Kindred,
) -> Result<(), NoMemory>
    ensures { OnOk result (out.new ≡ out.old ++ text_of item.now kindred.now) }
{
    match (item, kindred) {
        (Value::Unit, Kindred::Unit) => out.append(b"unit"),
        (Value::Bool(truth), Kindred::Bool) => {
            if *truth {
                out.append(b"true")
            } else {
                out.append(b"false")
            }
        }
        (Value::Int(number), Kindred::Int(_, _)) => append_number(alloc, out, *number),
        (Value::Sym(place), Kindred::Sym(names)) => match names.get().get(*place as usize) {
            Some(name) => out.append(name.as_slice()),
            None => Ok(()),
        },
        (Value::Text(text), Kindred::Text(_)) => append_quoted(out, text.get().as_slice()),
        (Value::Pair(x), Kindred::Pair(y)) => {
            let (x, y) = (x.get(), y.get());
            out.push(b'(')?;
            append_text(alloc, out, &x.left, &y.left)?;
            out.push(b',')?;
            append_text(alloc, out, &x.right, &y.right)?;
            out.push(b')')
        }
        _ => Ok(()),
    }
}

/// The text of an item of a type: `unit`, `true` or `false`, a number's decimal, a name, a text
/// in quotes with `\"` and `\\` for a quote and a backslash in it, or a pair as `(left,right)`
/// without spaces. An item of another kind than the type's has the empty text. `NoMemory` is want
/// of memory.
pub fn value_text(alloc: Global, item: &Value, kindred: &Kindred) -> Result<Bytes, NoMemory>
    ensures { IfOk result (λ text. text ≡ text_of item.now kindred.now) }
{
    let mut text = Bytes::new(alloc);
    append_text(alloc, &mut text, item, kindred)?;
    Ok(text)
}
