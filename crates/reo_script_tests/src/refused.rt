//! Which scripts are refused, and the first fault of each.
use crate::checks::is;
use crate::reading::{deep_script, nested, opened, script_of};
use reo_lexer::LexFault;
use reo_script::ScriptFault;
use reo_values::Bytes;
use std::alloc::Global;

/// What a text is answered: accepted, or the fault with its line and the name in it.
#[derive(Clone, Copy)]
enum Answer {
    Accepted,
    BadByte(u32),
    OpenText(u32),
    TooLong(u32),
    Syntax(u32),
    TooDeep(u32),
    NoPort(u32, &'static str),
    WrongWay(u32, &'static str),
    Outside(u32),
    Shared(u32, &'static str),
}

use Answer::{
    Accepted, BadByte, NoPort, OpenText, Outside, Shared, Syntax, TooDeep, TooLong, WrongWay,
};

const ANSWERS: &[(&str, Answer)] = &[
    ("", Accepted),
    ("component x { }\ncomponent x { }", Accepted),
    // 19 digits
    ("component x {\nwrite a 1000000000000000000; }", TooLong(2)),
    ("component x { write a 0000000000000000001; }", TooLong(1)),
    // leading zeros, blanks and minus nought
    (
        "component x { write a -0; write a - 0; write a 007; pause 01; }",
        Accepted,
    ),
    (
        "component x { write a 0; write a 99 within 0002; repeat 00 { } }",
        Accepted,
    ),
    ("component x {\nwrite a 100;\n}", Outside(2)),
    ("component x { write a -1; }", Outside(1)),
    ("component x { write a true; }", Outside(1)),
    // rounds are 1 to 10^9, and times 0 to 10^9
    (
        "component x { pause 1000000000; repeat 1000000000 { pause 1; } }",
        Accepted,
    ),
    ("component x {\npause\n0; }", Syntax(3)),
    ("component x { pause 1000000001; }", Syntax(1)),
    ("component x { take b\nwithin 0; }", Syntax(2)),
    (
        "component x { take b within 1000000000; take b within\n1000000001; }",
        Syntax(2),
    ),
    ("component x { repeat\n1000000001 { } }", Syntax(2)),
    ("component x { take b; }\n}", Syntax(2)),
    // the line of an action is that of its first token
    ("component x { pause 1;\nwrite\ne 1; }", NoPort(2, "e")),
    ("component x { take\na; }", WrongWay(1, "a")),
    ("component x {\n\nwrite b 1; }", WrongWay(3, "b")),
    // a component may name a port often, and another may not name it
    (
        "component x { write a 1; write a 2; }\ncomponent y { take b; }",
        Accepted,
    ),
    (
        "component x { write a 1; }\ncomponent y { pause 1;\nwrite a 2; }",
        Shared(3, "a"),
    ),
    (
        "component x { take b; }\ncomponent x { take b; }",
        Shared(2, "b"),
    ),
    // tokens before all, and each kind is judged over the whole script before the next kind
    ("component x { take a;\ntake e; }", NoPort(2, "e")),
    ("component x { write a 100;\ntake a; }", WrongWay(2, "a")),
    (
        "component x { write a 1; }\ncomponent y { write a 1;\nwrite c 100; }",
        Outside(3),
    ),
    (
        "component x { write a 1; }\ncomponent y { write a 1;\ntake e; }",
        NoPort(3, "e"),
    ),
    ("component x { take e; }\n}", Syntax(2)),
    ("component x { }\n}\n$", BadByte(3)),
    ("component x {\nwrite a \"x\n; }", OpenText(2)),
    // bodies that are done no time
    ("component x { repeat 0 {\ntake e; } }", NoPort(2, "e")),
    (
        "component x { repeat 0 { take b;\ntake a; } }",
        WrongWay(2, "a"),
    ),
    ("component x { repeat 0 {\nwrite a 100; } }", Outside(2)),
    (
        "component x { repeat 0 { take b; } }\ncomponent y { take b; }",
        Shared(2, "b"),
    ),
    (
        "component x { take b; }\ncomponent y { repeat 0 {\ntake b; } }",
        Shared(3, "b"),
    ),
];

fn is_of(line: u32, name: &Bytes, at: u32, of: &str) -> bool {
    line == at && name.as_slice() == of.as_bytes()
}

fn is_lexed(fault: &LexFault, answer: Answer) -> bool {
    match (fault, answer) {
        (LexFault::BadByte { line }, BadByte(at)) => *line == at,
        (LexFault::OpenText { line }, OpenText(at)) => *line == at,
        (LexFault::NumberTooLong { line }, TooLong(at)) => *line == at,
        _ => false,
    }
}

fn is_fault(fault: &ScriptFault, answer: Answer) -> bool {
    match (fault, answer) {
        (ScriptFault::Lex(fault), _) => is_lexed(fault, answer),
        (ScriptFault::Syntax { line }, Syntax(at)) => *line == at,
        (ScriptFault::TooDeep { line }, TooDeep(at)) => *line == at,
        (ScriptFault::NoPort { line, name }, NoPort(at, of)) => is_of(*line, name, at, of),
        (ScriptFault::WrongWay { line, name }, WrongWay(at, of)) => is_of(*line, name, at, of),
        (ScriptFault::ItemOutside { line }, Outside(at)) => *line == at,
        (ScriptFault::Shared { line, name }, Shared(at, of)) => is_of(*line, name, at, of),
        _ => false,
    }
}

fn is_answered(alloc: Global, text: &[u8], answer: Answer) -> bool {
    match script_of(alloc, text) {
        Ok(_) => matches!(answer, Accepted),
        Err(fault) => is_fault(&fault, answer),
    }
}

/// Whether so many repeats in one another are answered so.
fn is_nested(alloc: Global, times: usize, answer: Answer) -> bool {
    match nested(alloc, times, "repeat 1 { ", "take b;") {
        Ok(text) => is_answered(alloc, text.as_slice(), answer),
        Err(_) => false,
    }
}

/// What stands behind sixteen repeats, a line each, that are not ended: of a token that is refused
/// and one that is too deep the first counts, on one token the refusal, and that of a text that
/// only begins one stands behind all tokens.
const OPENED: &[(&str, Answer)] = &[
    ("\nwrite\nrepeat 1 { }", Syntax(19)),
    ("\nrepeat", TooDeep(18)),
    ("\nrepeat\n;", TooDeep(18)),
];

/// Whether a text with an end left open is answered so.
fn is_opened(alloc: Global, times: usize, word: &str, rest: &str, answer: Answer) -> bool {
    match opened(alloc, times, word, rest) {
        Ok(text) => is_answered(alloc, text.as_slice(), answer),
        Err(_) => false,
    }
}

/// Whether a literal of pairs in one another, a line each, is answered so.
fn is_literal(alloc: Global, times: usize, answer: Answer) -> bool {
    match deep_script(alloc, times) {
        Ok(text) => is_answered(alloc, text.as_slice(), answer),
        Err(_) => false,
    }
}

#[test]
fn scripts_have_their_answers(rt: HostRuntime) {
    let alloc = rt.alloc();
    for (text, answer) in ANSWERS {
        is(&rt, is_answered(alloc, text.as_bytes(), *answer), text);
    }
    is(&rt, is_nested(alloc, 16, Accepted), "sixteen");
    is(&rt, is_nested(alloc, 17, TooDeep(1)), "seventeen");
    for (rest, answer) in OPENED {
        is(
            &rt,
            is_opened(alloc, 16, "\nrepeat 1 {", rest, *answer),
            rest,
        );
    }
    is(&rt, is_literal(alloc, 64, Outside(1)), "sixty-four levels");
    is(&rt, is_literal(alloc, 65, TooDeep(65)), "sixty-five levels");
}
