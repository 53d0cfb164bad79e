//! Lists, boxes and copies at types of their own.
use crate::checks::is;
use reo_values::{
    Boxed, Bytes, Copies, Filling, List, NoMemory, Shared, Symbols, Value, same_item,
};
use std::alloc::Global;

fn add_three(alloc: Global, list: &mut List<u32>) -> Result<(), NoMemory> {
    let mut more = List::new(alloc);
    list.push(3)?;
    more.push(5)?;
    more.push(7)?;
    list.append(more)
}

fn has_second_set(list: &mut List<u32>) -> bool {
    if list.len() == 3 {
        let before = *list.at(1);
        *list.at_mut(1) = 6;
        before == 5 && list.get(1).copied() == Some(6)
    } else {
        false
    }
}

fn is_copied(alloc: Global, list: &List<u32>) -> bool {
    match list.copied(alloc) {
        Ok(again) => again.into_vec().as_slice() == [3, 6, 7].as_slice(),
        Err(_) => false,
    }
}

fn is_shortened(list: &mut List<u32>) -> bool {
    let last = list.pop();
    list.truncate(1);
    let one = list.as_slice() == [3].as_slice();
    list.clear();
    last == Some(7) && one && list.is_empty()
}

fn grows_and_shrinks(alloc: Global) -> bool {
    let mut list = List::new(alloc);
    add_three(alloc, &mut list).is_ok()
        && has_second_set(&mut list)
        && is_copied(alloc, &list)
        && is_shortened(&mut list)
}

fn is_filled(alloc: Global) -> bool {
    match Filling::with_room(alloc, 2) {
        Ok(mut filling) => {
            filling.push(true);
            filling.push(false);
            filling.into_list().as_slice() == [true, false].as_slice()
        }
        Err(_) => false,
    }
}

fn is_boxed(alloc: Global) -> bool {
    match Boxed::new(alloc, 9u8) {
        Ok(boxed) => boxed.into_inner() == 9,
        Err(_) => false,
    }
}

/// Whether a second owner has the value still when the first is gone.
fn outlives_its_first_owner(alloc: Global) -> Result<bool, NoMemory> {
    let first = Shared::new(alloc, 9u8)?;
    let second = first.share()?;
    drop(first);
    Ok(*second.get() == 9)
}

fn is_shared(alloc: Global) -> bool {
    matches!(outlives_its_first_owner(alloc), Ok(true))
}

/// The symbols of two names.
fn two_symbols(alloc: Global, first: &[u8], second: &[u8]) -> Result<Symbols, NoMemory> {
    let mut names = List::new(alloc);
    names.push(Bytes::from_slice(alloc, first)?)?;
    names.push(Bytes::from_slice(alloc, second)?)?;
    Symbols::new(alloc, names)
}

fn are_told_apart(alloc: Global) -> Result<bool, NoMemory> {
    let one = two_symbols(alloc, b"a", b"bc")?;
    let again = two_symbols(alloc, b"a", b"bc")?;
    let other = two_symbols(alloc, b"ab", b"c")?;
    Ok(one.same(&again) && !one.same(&other) && one.len() == 2 && one.get(2).is_none())
}

fn symbols_compared(alloc: Global) -> bool {
    matches!(are_told_apart(alloc), Ok(true))
}

#[test]
fn lists_and_boxes(rt: HostRuntime) {
    let alloc = rt.alloc();
    is(&rt, grows_and_shrinks(alloc), "a list");
    is(&rt, is_filled(alloc), "reserved room");
    is(&rt, is_boxed(alloc), "a box");
    is(&rt, is_shared(alloc), "a shared value");
    is(&rt, symbols_compared(alloc), "symbols");
}

fn is_cut(alloc: Global, bytes: &mut Bytes) -> Result<bool, NoMemory> {
    bytes.append(b"abc")?;
    bytes.truncate(2);
    Ok(bytes.copy(alloc)?.into_vec().as_slice() == b"ab".as_slice())
}

fn cut_and_copied(alloc: Global) -> bool {
    let mut bytes = Bytes::new(alloc);
    matches!(is_cut(alloc, &mut bytes), Ok(true))
}

fn text(alloc: Global) -> Result<Value, NoMemory> {
    let text = Bytes::from_slice(alloc, b"x")?;
    Ok(Value::Text(Shared::new(alloc, text)?))
}

fn add_some_and_none(alloc: Global, items: &mut List<Option<Value>>) -> Result<(), NoMemory> {
    items.push(Some(text(alloc)?))?;
    items.push(None)
}

fn are_same(items: &[Option<Value>], others: &[Option<Value>]) -> bool {
    match (items, others) {
        ([Some(x), None], [Some(y), None]) => same_item(x, y),
        _ => false,
    }
}

fn are_copied(alloc: Global, items: &List<Option<Value>>) -> bool {
    match items.copied(alloc) {
        Ok(others) => are_same(items.as_slice(), others.as_slice()),
        Err(_) => false,
    }
}

fn options_copied(alloc: Global) -> bool {
    let mut items = List::new(alloc);
    add_some_and_none(alloc, &mut items).is_ok() && are_copied(alloc, &items)
}

fn plain_copied(alloc: Global) -> bool {
    8u8.copied(alloc) == Ok(8)
        && 64u64.copied(alloc) == Ok(64)
        && 1usize.copied(alloc) == Ok(1)
        && true.copied(alloc) == Ok(true)
}

#[test]
fn copies(rt: HostRuntime) {
    let alloc = rt.alloc();
    is(&rt, cut_and_copied(alloc), "bytes");
    is(&rt, options_copied(alloc), "options");
    is(&rt, plain_copied(alloc), "plain values");
}
