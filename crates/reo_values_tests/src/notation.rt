//! Types and items as words: behind the words of a pair's left part and of its right part stands a
//! comma. What words say is added to a list.
use reo_values::{
    Bytes, Couple, Kindred, List, NoMemory, Shared, Symbols, Twins, Value, append_number,
};
use std::alloc::Global;

/// The words say nothing, or memory ended.
#[derive(Clone, Copy)]
pub struct Unread;

impl From<NoMemory> for Unread {
    fn from(_: NoMemory) -> Unread {
        Unread
    }
}

/// The last one of a list, taken out.
pub fn last<T>(list: &mut List<T>) -> Result<T, Unread> {
    match list.pop() {
        Some(last) => Ok(last),
        None => Err(Unread),
    }
}

/// The bytes of a text that stands in words, with `^` for a space.
pub fn spaced(alloc: Global, word: &str) -> Result<Bytes, NoMemory> {
    let mut bytes = Bytes::new(alloc);
    for byte in word.as_bytes() {
        bytes.push(if *byte == b'^' { b' ' } else { *byte })?;
    }
    Ok(bytes)
}

fn add_name(alloc: Global, names: &mut List<Bytes>, number: u16) -> Result<(), NoMemory> {
    let mut name = Bytes::from_slice(alloc, b"n")?;
    append_number(alloc, &mut name, number as i64)?;
    names.push(name)
}

/// The names n0, n1 and so on.
pub fn numbered(alloc: Global, count: u16) -> Result<List<Bytes>, NoMemory> {
    let mut names = List::new(alloc);
    for number in 0..count {
        add_name(alloc, &mut names, number)?;
    }
    Ok(names)
}

/// The names that stand in a word, with a slash between each two.
fn names(alloc: Global, word: &str) -> Result<List<Bytes>, NoMemory> {
    let mut names = List::new(alloc);
    for name in word.split('/') {
        names.push(Bytes::from_slice(alloc, name.as_bytes())?)?;
    }
    Ok(names)
}

/// The number that stands behind a front of the word.
pub fn behind(word: &str, front: &str) -> Option<u16> {
    match word.strip_prefix(front)?.parse::<u16>() {
        Ok(number) => Some(number),
        Err(_) => None,
    }
}

/// The numbers of a word as `-3..4`.
fn interval(word: &str) -> Option<(i64, i64)> {
    let (low, high) = word.split_once("..")?;
    match (low.parse::<i64>(), high.parse::<i64>()) {
        (Ok(low), Ok(high)) => Some((low, high)),
        _ => None,
    }
}

/// The type of these names.
fn sym_type(alloc: Global, names: List<Bytes>) -> Result<Kindred, NoMemory> {
    let symbols = Symbols::new(alloc, names)?;
    Ok(Kindred::Sym(Shared::new(alloc, symbols)?))
}

/// `0..9`, `text3`, `red/green`, or `names1024` for so many names.
fn other_type(alloc: Global, word: &str) -> Result<Kindred, NoMemory> {
    if let Some((low, high)) = interval(word) {
        Ok(Kindred::Int(low, high))
    } else if let Some(most) = behind(word, "text") {
        Ok(Kindred::Text(most))
    } else if let Some(count) = behind(word, "names") {
        sym_type(alloc, numbered(alloc, count)?)
    } else {
        sym_type(alloc, names(alloc, word)?)
    }
}

fn pair_type(alloc: Global, types: &mut List<Kindred>) -> Result<Kindred, Unread> {
    let right = last(types)?;
    let left = last(types)?;
    Ok(Kindred::Pair(Shared::new(alloc, Twins { left, right })?))
}

fn next_type(alloc: Global, types: &mut List<Kindred>, word: &str) -> Result<Kindred, Unread> {
    match word {
        "unit" => Ok(Kindred::Unit),
        "bool" => Ok(Kindred::Bool),
        "," => pair_type(alloc, types),
        _ => Ok(other_type(alloc, word)?),
    }
}

/// Adds the type that words say.
pub fn read_type(alloc: Global, types: &mut List<Kindred>, words: &str) -> Result<(), Unread> {
    for word in words.split(' ') {
        let next = next_type(alloc, types, word)?;
        types.push(next)?;
    }
    Ok(())
}

/// `'a^b` for a text, `#5` for the name at a place, or a number.
fn other_item(alloc: Global, word: &str) -> Result<Value, Unread> {
    if let Some(text) = word.strip_prefix('\'') {
        let text = spaced(alloc, text)?;
        Ok(Value::Text(Shared::new(alloc, text)?))
    } else if let Some(place) = behind(word, "#") {
        Ok(Value::Sym(place))
    } else {
        match word.parse::<i64>() {
            Ok(number) => Ok(Value::Int(number)),
            Err(_) => Err(Unread),
        }
    }
}

fn pair_item(alloc: Global, items: &mut List<Value>) -> Result<Value, Unread> {
    let right = last(items)?;
    let left = last(items)?;
    Ok(Value::Pair(Shared::new(alloc, Couple { left, right })?))
}

fn next_item(alloc: Global, items: &mut List<Value>, word: &str) -> Result<Value, Unread> {
    match word {
        "unit" => Ok(Value::Unit),
        "true" => Ok(Value::Bool(true)),
        "false" => Ok(Value::Bool(false)),
        "," => pair_item(alloc, items),
        _ => other_item(alloc, word),
    }
}

/// Adds the item that words say.
pub fn read_item(alloc: Global, items: &mut List<Value>, words: &str) -> Result<(), Unread> {
    for word in words.split(' ') {
        let next = next_item(alloc, items, word)?;
        items.push(next)?;
    }
    Ok(())
}
