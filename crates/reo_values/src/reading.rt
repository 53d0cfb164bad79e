//! Reading an item again from its text.
ghost use Rattle.std.specs.Prelude.{◌≡◌, ◌≢◌, ◌++◌, ◌∷◌, [], ◌<◌, ℕ, Bool, List, codes, length, IfOk, IfErr, OnOk, IsErrOf, MatchOption, slice_index_or};
ghost use Rattle.reo_values.specs.Bytes.{quote};
ghost use Rattle.reo_values.specs.ItemText.{escape, quoted, truth_text, text_of};
ghost use Rattle.reo_values.specs.Kind.{IsIn};
ghost use Rattle.reo_values.specs.Reading.{HasWords, Ends, Reads, ReadsAgain};
ghost use Rattle.reo_values.specs.Valid.{AreNames, IsValid};

use crate::kindred::all_plain;
use crate::reader::Reader;
use crate::{Bytes, Couple, Kindred, ReadFault, Shared, Value, read_number};
use std::alloc::Global;

// One byte of a text between quotes, without what escapes it, or None at the closing quote.
fn quoted_byte(reader: &mut Reader) -> Result<Option<u8>, ReadFault>
    ensures found { IfOk result
        (λ found. MatchOption found (reader.old ≡ quote ∷ reader.new)
        (λ byte. reader.old ≡ escape byte ++ reader.new)) }
    ensures end { IsErrOf result ReadFault.NotALiteral → (rest : List ℕ)
        → reader.old ≢ quote ∷ rest }
    ensures none { IsErrOf result ReadFault.NotALiteral → (byte : ℕ) (rest : List ℕ)
        → reader.old ≢ escape byte ++ rest }
    ensures fault { IfErr result (λ fault. fault ≡ ReadFault.NotALiteral) }
{
    match reader.next() {
        None => Err(ReadFault::NotALiteral),
        Some(b'"') => Ok(None),
        Some(b'\\') => match reader.next() {
            Some(byte) if byte == b'"' || byte == b'\\' => Ok(Some(byte)),
            _ => Err(ReadFault::NotALiteral),
        },
        Some(byte) => Ok(Some(byte)),
    }
}

// The bytes of a quoted text.
fn quoted_bytes(alloc: Global, reader: &mut Reader) -> Result<Bytes, ReadFault>
    ensures found { IfOk result (λ bytes. reader.old ≡ quoted bytes ++ reader.new) }
    ensures none { IsErrOf result ReadFault.NotALiteral → (bytes rest : List ℕ)
        → reader.old ≢ quoted bytes ++ rest }
{
    reader.expect(b'"')?;
    let mut made = Bytes::new(alloc);
    while let Some(byte) = quoted_byte(reader)? {
        made.push(byte)?;
    }
    Ok(made)
}

// The one word of the type unit.
fn read_unit(word: &[u8]) -> Result<(), ReadFault>
    ensures found { OnOk result (word.now ≡ codes "unit") }
    ensures none { IsErrOf result ReadFault.NotALiteral → word.now ≢ codes "unit" }
    ensures fault { IfErr result (λ fault. fault ≡ ReadFault.NotALiteral) }
{
    if word == b"unit".as_slice() {
        Ok(())
    } else {
        Err(ReadFault::NotALiteral)
    }
}

// The truth value of a word.
fn read_truth(word: &[u8]) -> Result<bool, ReadFault>
    ensures found { IfOk result (λ truth. word.now ≡ truth_text truth) }
    ensures none { IsErrOf result ReadFault.NotALiteral → (truth : Bool)
        → word.now ≢ truth_text truth }
    ensures fault { IfErr result (λ fault. fault ≡ ReadFault.NotALiteral) }
{
    if word == b"true".as_slice() {
        Ok(true)
    } else if word == b"false".as_slice() {
        Ok(false)
    } else {
        Err(ReadFault::NotALiteral)
    }
}

// The place of a name.
fn read_name(names: &[Bytes], word: &[u8]) -> Result<u16, ReadFault>
    requires { AreNames names.now }
    ensures found { IfOk result
        (λ k. (k < length names.now) × (word.now ≡ slice_index_or names.now k [])) }
    ensures none { IsErrOf result ReadFault.NotALiteral → (k : ℕ) → k < length names.now
        → word.now ≢ slice_index_or names.now k [] }
    ensures fault { IfErr result (λ fault. fault ≡ ReadFault.NotALiteral) }
{
    for (place, name) in names.iter().enumerate() {
        if name.as_slice() == word {
            return Ok(place as u16);
        }
    }
    Err(ReadFault::NotALiteral)
}

// The item whose text is exactly this word.
fn word_item(alloc: Global, word: &[u8], kindred: &Kindred) -> Result<Value, ReadFault>
    requires valid { IsValid kindred.now }
    requires words { HasWords kindred.now }
    ensures found { IfOk result
        (λ item. IsIn item kindred.now × (word.now ≡ text_of item kindred.now)) }
    ensures none { IsErrOf result ReadFault.NotALiteral → (item : Value) → IsIn item kindred.now
        → word.now ≢ text_of item kindred.now }
{
    match kindred {
        Kindred::Unit => {
            read_unit(word)?;
            Ok(Value::Unit)
        }
        Kindred::Bool => Ok(Value::Bool(read_truth(word)?)),
        Kindred::Int(low, high) => Ok(Value::Int(read_number(alloc, word, *low, *high)?)),
        Kindred::Sym(names) => Ok(Value::Sym(read_name(names.get().as_slice(), word)?)),
        _ => Err(ReadFault::NotALiteral),
    }
}

// The text of at most so many bytes, each from the space to the tilde.
fn text_item(alloc: Global, reader: &mut Reader, most: u16) -> Result<Value, ReadFault>
    ensures found { IfOk result
        (λ item. IsIn item (Kindred.Text most)
        × (reader.old ≡ text_of item (Kindred.Text most) ++ reader.new)) }
    ensures again { ReadsAgain result reader.old reader.new (Kindred.Text most) }
{
    let bytes = quoted_bytes(alloc, reader)?;
    if bytes.len() <= most as usize && all_plain(bytes.as_slice()) {
        let text = Shared::new(alloc, bytes)?;
        Ok(Value::Text(text))
    } else {
        Err(ReadFault::NotALiteral)
    }
}

// The item whose text is next. It goes down the type, and never deeper.
fn item(alloc: Global, reader: &mut Reader, kindred: &Kindred) -> Result<Value, ReadFault>
    requires { IsValid kindred.now }
    ensures found { IfOk result
        (λ item. IsIn item kindred.now × (reader.old ≡ text_of item kindred.now ++ reader.new)) }
    ensures again { ReadsAgain result reader.old reader.new kindred.now }
{
    match kindred {
        Kindred::Text(most) => text_item(alloc, reader, *most),
        Kindred::Pair(twins) => {
            let twins = twins.get();
            reader.expect(b'(')?;
            let left = item(alloc, reader, &twins.left)?;
            reader.expect(b',')?;
            let right = item(alloc, reader, &twins.right)?;
            reader.expect(b')')?;
            let couple = Shared::new(alloc, Couple { left, right })?;
            Ok(Value::Pair(couple))
        }
        _ => word_item(alloc, reader.word(), kindred),
    }
}

/// The item of a type whose text is exactly this one, as [`value_text`](crate::value_text)
/// writes it. `NotALiteral` comes exactly where no item of the type has this text, and
/// `NoMemory` means out of memory.
pub fn read_value(alloc: Global, text: &[u8], kindred: &Kindred) -> Result<Value, ReadFault>
    requires { IsValid kindred.now }
    ensures found { IfOk result
        (λ item. IsIn item kindred.now × (text.now ≡ text_of item kindred.now)) }
    ensures none { IsErrOf result ReadFault.NotALiteral → (item : Value) → IsIn item kindred.now
        → text.now ≢ text_of item kindred.now }
{
    let mut reader = Reader::new(text);
    let found = item(alloc, &mut reader, kindred)?;
    if reader.is_done() {
        Ok(found)
    } else {
        Err(ReadFault::NotALiteral)
    }
}
