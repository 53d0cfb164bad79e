//! Items and types: which texts items have, and what is valid.
use crate::checks::is;
use crate::looks::{Line, Table, holds};
use crate::notation::Unread;
use reo_values::{
    Bytes, Copies, Kindred, NoMemory, ReadFault, Value, append_number, append_quoted, copy, is_in,
    is_name, is_valid, item_test_is_exact, name_test_is_exact, number_text, one_item_for_each_text,
    read_number, read_value, same_item, value_text,
};
use std::alloc::Global;

/// Words of a type, words of an item of it, and the item's text.
const TEXTS: &[&str] = &[
    "unit|unit|unit",
    "bool|true|true",
    "bool|false|false",
    "-1000000000..1000000000|0|0",
    "-1000000000..1000000000|-120|-120",
    "-1000000000..1000000000|1000000000|1000000000",
    "red/redder/_1|#0|red",
    "red/redder/_1|#1|redder",
    "red/redder/_1|#2|_1",
    "text3|'|\"\"",
    "text3|'a^~|\"a ~\"",
    "text3|'\"\\|\"\\\"\\\\\"",
    "-3..3 text9 ,|-3 ',)\" ,|(-3,\",)\\\"\")",
    "0..9 unit , unit , unit , unit , unit , unit , unit , unit ,|7 unit , unit , unit , unit , \
        unit , unit , unit , unit ,|((((((((7,unit),unit),unit),unit),unit),unit),unit),unit)",
    "names1024|#1|n1",
    "names1024|#102|n102",
    "names1024|#1023|n1023",
];

/// Whether the item is read from the text.
fn is_read(alloc: Global, text: &str, item: &Value, kindred: &Kindred) -> bool {
    if is_valid(kindred) {
        match read_value(alloc, text.as_bytes(), kindred) {
            Ok(read) => same_item(&read, item),
            Err(_) => false,
        }
    } else {
        false
    }
}

fn is_written(alloc: Global, text: &str, item: &Value, kindred: &Kindred) -> bool {
    match value_text(alloc, item, kindred) {
        Ok(written) => written.as_slice() == text.as_bytes(),
        Err(_) => false,
    }
}

/// Whether the item, and a copy of it, are of a copy of the type.
fn is_copied(alloc: Global, item: &Value, kindred: &Kindred) -> Result<bool, NoMemory> {
    let kindred = kindred.copied(alloc)?;
    let again = copy(item)?;
    Ok(same_item(&again, item) && is_in(&again, &kindred) && is_in(item, &kindred))
}

pub fn has_text(alloc: Global, line: &Line, text: &str) -> Result<bool, Unread> {
    let (Some(kindred), Some(item)) = (line.types.get(0), line.items.get(0)) else {
        return Err(Unread);
    };
    Ok(
        is_read(alloc, text, item, kindred)
            && is_written(alloc, text, item, kindred)
            && is_copied(alloc, item, kindred)?,
    )
}

#[test]
fn items_have_their_texts(rt: HostRuntime) {
    for text in TEXTS {
        is(&rt, holds(rt.alloc(), Table::Texts, text), text);
    }
}

/// Words of a type, and texts that no item of it has.
const NO_TEXTS: &[&str] = &[
    "unit|unit |Unit|",
    "bool|tru|truee",
    "-9..9|-0|05|+5|10|-10|5,|",
    "red/redder/_1|re|reddest|",
    "text2|\"abc\"|\"a|a\"|\"\\a\"|\"\n\"|\"a\"b",
    "-3..3 text9 ,|(-3, \"\")|(-3,\"\"|(-3)|(-3,\"\"))|-3,\"\"",
];

/// Whether no item of the type has the text.
fn is_refused(alloc: Global, text: &str, kindred: &Kindred) -> bool {
    if is_valid(kindred) {
        match read_value(alloc, text.as_bytes(), kindred) {
            Ok(_) => false,
            Err(fault) => fault == ReadFault::NotALiteral,
        }
    } else {
        false
    }
}

pub fn are_refused(alloc: Global, line: &Line, texts: &str) -> bool {
    let Some(kindred) = line.types.get(0) else {
        return false;
    };
    let mut all = true;
    for text in texts.split('|').skip(1) {
        all = all && is_refused(alloc, text, kindred);
    }
    all
}

#[test]
fn other_texts_are_refused(rt: HostRuntime) {
    for text in NO_TEXTS {
        is(&rt, holds(rt.alloc(), Table::NoTexts, text), text);
    }
}

/// Words of a type, and of an item that is not of it.
const FOREIGN: &[&str] = &[
    "names1024|#1024",
    "-9..9|10",
    "text2|'abc",
    "unit|true",
    "bool|0",
];

pub fn is_foreign(line: &Line) -> bool {
    match (line.types.get(0), line.items.get(0)) {
        (Some(kindred), Some(item)) => !is_in(item, kindred),
        _ => false,
    }
}

#[test]
fn other_items_are_not_of_the_type(rt: HostRuntime) {
    for text in FOREIGN {
        is(&rt, holds(rt.alloc(), Table::Foreign, text), text);
    }
}

/// Types that are not valid.
const INVALID: &[&str] = &["1..0", "unit a/a ,", "names1025"];

pub fn is_invalid(line: &Line) -> bool {
    match line.types.get(0) {
        Some(kindred) => !is_valid(kindred),
        None => false,
    }
}

#[test]
fn types_that_are_not_valid(rt: HostRuntime) {
    for words in INVALID {
        is(&rt, holds(rt.alloc(), Table::Invalid, words), words);
    }
}

const NAMES: &[(&str, bool)] = &[
    ("_", true),
    ("Az09_", true),
    ("", false),
    ("9a", false),
    ("a-b", false),
    ("\u{e4}", false),
];

#[test]
fn names_are_spelled_as_names(rt: HostRuntime) {
    for (word, wanted) in NAMES {
        is(&rt, is_name(word.as_bytes()) == *wanted, word);
    }
}

/// The ends of the numbers.
const ENDS: &[(i64, &str)] = &[
    (i64::MIN, "-9223372036854775808"),
    (i64::MAX, "9223372036854775807"),
];

fn writes(alloc: Global, number: i64, text: &str) -> bool {
    match number_text(alloc, number) {
        Ok(written) => written.as_slice() == text.as_bytes(),
        Err(_) => false,
    }
}

fn reads(alloc: Global, number: i64, text: &str) -> bool {
    read_number(alloc, text.as_bytes(), i64::MIN, i64::MAX) == Ok(number)
}

#[test]
fn numbers_at_the_ends(rt: HostRuntime) {
    let alloc = rt.alloc();
    for (number, text) in ENDS {
        is(
            &rt,
            writes(alloc, *number, text) && reads(alloc, *number, text),
            text,
        );
    }
}

fn add_both(alloc: Global, out: &mut Bytes) -> Result<(), NoMemory> {
    append_number(alloc, out, -7)?;
    append_quoted(out, b"a\"")
}

fn added(alloc: Global) -> bool {
    let mut out = Bytes::new(alloc);
    add_both(alloc, &mut out).is_ok() && out.as_slice() == b"-7\"a\\\"\"".as_slice()
}

#[test]
fn texts_are_added_behind_others(rt: HostRuntime) {
    is(&rt, added(rt.alloc()), "-7");
}

#[test]
fn laws_of_items(_rt: HostRuntime) {
    item_test_is_exact();
    name_test_is_exact();
    one_item_for_each_text(&Value::Unit, &Value::Unit, &Kindred::Unit);
}
