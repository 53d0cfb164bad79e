//! Tokens taken one by one.
use crate::checks::is;
use reo_cursor::{Cursor, Halt};
use reo_lexer::lex;
use std::alloc::Global;
use std::test::Fail;

/// What a cursor is asked, or takes.
enum Step {
    Left(usize),
    Line(u32),
    Is(&'static str, bool),
    IsOther(&'static str, bool),
    IsName(bool),
    IsText(bool),
    IsNumber(u64, u64, bool),
    Takes(&'static str),
    Refuses(&'static str),
    TakesNumber(u64, u64, u64),
    RefusesNumber(u64, u64),
    TakesName(&'static str),
    TakesText(&'static str),
}

use Step::{
    Is, IsName, IsNumber, IsOther, IsText, Left, Line, Refuses, RefusesNumber, Takes, TakesName,
    TakesNumber, TakesText,
};

const TEXT: &str = "in x;\n7 \"a\\\"\\\\b\" }";

const STEPS: &[Step] = &[
    Left(6),
    Refuses("out"),
    Is("in", true),
    IsName(false),
    IsOther("in", false),
    Takes("in"),
    IsName(true),
    IsOther("x", true),
    TakesName("x"),
    RefusesNumber(0, 9),
    Takes(";"),
    Line(2),
    IsNumber(0, 7, true),
    IsNumber(7, 7, true),
    IsNumber(8, 9, false),
    IsNumber(0, 6, false),
    RefusesNumber(8, 9),
    TakesNumber(0, 9, 7),
    IsText(true),
    TakesText("a\"\\b"),
    Takes("}"),
    Left(0),
    Line(0),
    Refuses("}"),
];

fn takes_name(alloc: Global, cursor: &mut Cursor, wanted: &str) -> bool {
    match cursor.name(alloc) {
        Ok(name) => name.as_slice() == wanted.as_bytes(),
        Err(_) => false,
    }
}

fn takes_text(alloc: Global, cursor: &mut Cursor, wanted: &str) -> bool {
    match cursor.text(alloc) {
        Ok(text) => text.as_slice() == wanted.as_bytes(),
        Err(_) => false,
    }
}

/// Whether the cursor answers as the step says.
fn steps(alloc: Global, cursor: &mut Cursor, step: &Step) -> bool {
    match step {
        Left(count) => cursor.left() == *count,
        Line(line) => cursor.line() == *line,
        Is(word, answer) => cursor.is(word.as_bytes()) == *answer,
        IsOther(word, answer) => cursor.is_other(word.as_bytes()) == *answer,
        IsName(answer) => cursor.is_name() == *answer,
        IsText(answer) => cursor.is_text() == *answer,
        IsNumber(low, high, answer) => cursor.is_number(*low, *high) == *answer,
        Takes(word) => cursor.expect(word.as_bytes()) == Ok(()),
        Refuses(word) => cursor.expect(word.as_bytes()) == Err(Halt::Syntax),
        TakesNumber(low, high, number) => cursor.number(*low, *high) == Ok(*number),
        RefusesNumber(low, high) => cursor.number(*low, *high) == Err(Halt::Syntax),
        TakesName(name) => takes_name(alloc, cursor, name),
        TakesText(text) => takes_text(alloc, cursor, text),
    }
}

#[test]
fn tokens_in_turn(rt: HostRuntime) -> Result<(), Fail> {
    let alloc = rt.alloc();
    let tokens = lex(alloc, TEXT.as_bytes())?;
    let mut cursor = Cursor::new(TEXT.as_bytes(), tokens.as_slice());
    for step in STEPS {
        is(&rt, steps(alloc, &mut cursor, step), TEXT);
    }
    Ok(())
}
