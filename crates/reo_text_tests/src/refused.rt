//! Texts of either version are refused at their first fault.
use crate::checks::is;
use crate::texts::{any_of, first_of};
use ParseFault::{Lex, Syntax, TooDeep};
use reo_lexer::LexFault;
use reo_parser::ParseFault;

/// A text, and why it is refused.
const REFUSED: &[(&str, ParseFault)] = &[
    // The version.
    ("reo", Syntax { line: 1 }),
    ("\nreo\n1", Syntax { line: 3 }),
    ("reo\n3 connector", Syntax { line: 2 }),
    ("reo 2\nreo 2", Syntax { line: 2 }),
    ("connector c() {}\nreo 2", Syntax { line: 2 }),
    ("reo 2\n$", Lex(LexFault::BadByte { line: 2 })),
    ("reo 2 \"\n", Lex(LexFault::OpenText { line: 1 })),
    (
        "reo\n1234567890123456789",
        Lex(LexFault::NumberTooLong { line: 2 }),
    ),
    // A text that only begins one is refused at its last token.
    (
        "reo 2\nconnector c() {\nfor i = 0 to 1 {\n}\n\n",
        Syntax { line: 4 },
    ),
    ("reo 2\nconnector c<\n", Syntax { line: 2 }),
    // Headers.
    ("reo 2 connector c<\n1>() {}", Syntax { line: 2 }),
    ("reo 2 connector c<n\n+ 1>() {}", Syntax { line: 2 }),
    ("reo 2 connector c\n{}", Syntax { line: 2 }),
    // What version 1 has not.
    ("connector c\n<n>() {}", Syntax { line: 2 }),
    ("connector c() { sync a\n.0 b; }", Syntax { line: 2 }),
    ("connector c() { use e\n<0>(); }", Syntax { line: 2 }),
    ("connector c() {\nfor i = 0 to 1 {} }", Syntax { line: 2 }),
    ("connector c() {\nshift 1 a b; }", Syntax { line: 2 }),
    ("connector c() {\nvariable a b; }", Syntax { line: 2 }),
    ("connector c() {\nquota 1 a b; }", Syntax { line: 2 }),
    // Arrays, and nodes in loops.
    (
        "reo 2 connector c() { node x.\n3: unit; }",
        Syntax { line: 2 },
    ),
    (
        "reo 2 connector c() { node x.(\n): unit; }",
        Syntax { line: 2 },
    ),
    (
        "reo 2 connector c() { for i = 0 to 1 {\nnode x: unit; } }",
        Syntax { line: 2 },
    ),
    (
        "reo 2 connector c() { for i = 0 to 1 { for j = 0 to 1 {\nnode x: unit; } } }",
        Syntax { line: 2 },
    ),
    // Indexes: no sign before the first unit, no ninth unit, no number above 10^9.
    (
        "reo 2 connector c() { sync x.\n- 1 b; }",
        Syntax { line: 2 },
    ),
    (
        "reo 2 connector c() { sync x.(\n- 1) b; }",
        Syntax { line: 2 },
    ),
    (
        "reo 2 connector c() { sync x.1\n.2 b; }",
        Syntax { line: 2 },
    ),
    (
        "reo 2 connector c() { sync x.1\n+ 2 b; }",
        Syntax { line: 2 },
    ),
    (
        "reo 2 connector c() { sync x.((\n1)) b; }",
        Syntax { line: 1 },
    ),
    (
        "reo 2 connector c() { sync x.(1+1+1+1+1+1+1+1\n+1) b; }",
        Syntax { line: 2 },
    ),
    (
        "reo 2 connector c() { sync x.(1 *\n2) b; }",
        Syntax { line: 1 },
    ),
    (
        "reo 2 connector c() { sync x.\n1000000001 b; }",
        Syntax { line: 2 },
    ),
    (
        "reo 2 connector c() { sync x.(0 -\n1000000001) b; }",
        Syntax { line: 2 },
    ),
    (
        "reo 2 connector c() { use e<1-\n1000000001>(); }",
        Syntax { line: 2 },
    ),
    ("reo 2 connector c() { use e<\n>(); }", Syntax { line: 2 }),
    (
        "reo 2 connector c() { use e<1>(x,\n); }",
        Syntax { line: 2 },
    ),
    // Loops.
    (
        "reo 2 connector c() { for i\n0 to 1 {} }",
        Syntax { line: 2 },
    ),
    (
        "reo 2 connector c() { for\n1 = 0 to 1 {} }",
        Syntax { line: 2 },
    ),
    (
        "reo 2 connector c() { for i = 0\n.. 1 {} }",
        Syntax { line: 2 },
    ),
    (
        "reo 2 connector c() { for i = 0 to 1 { }\n; }",
        Syntax { line: 2 },
    ),
    ("reo 2 connector c() {\nrepeat a b; }", Syntax { line: 2 }),
    ("reo 2 connector c() {\nother a b; }", Syntax { line: 2 }),
    // Channels of version 2.
    ("reo 2 connector c() { shift\n0 a b; }", Syntax { line: 2 }),
    (
        "reo 2 connector c() { shift\n1025 a b; }",
        Syntax { line: 2 },
    ),
    ("reo 2 connector c() { shift\na b; }", Syntax { line: 2 }),
    (
        "reo 2 connector c() { shift 1 a b with\n; }",
        Syntax { line: 2 },
    ),
    (
        "reo 2 connector c() { variable\n1 a b; }",
        Syntax { line: 2 },
    ),
    (
        "reo 2 connector c() { variable a b with 1\n, 2; }",
        Syntax { line: 2 },
    ),
    (
        "reo 2 connector c() { quota\n1000000001 a b; }",
        Syntax { line: 2 },
    ),
    (
        "reo 2 connector c() { quota 1 a b\nwith 1; }",
        Syntax { line: 2 },
    ),
    // The ninth loop in one another, unless a token before it is refused.
    (NINE, TooDeep { line: 10 }),
    (NINE_BEHIND, TooDeep { line: 4 }),
    (NINE_OPEN, TooDeep { line: 3 }),
    (NINE_LATE, Syntax { line: 2 }),
    (NINE_AT_ONCE, Syntax { line: 3 }),
    // The sixty-fifth parenthesis, and the sixty-fifth operator behind one word `to`.
    (DEEP, TooDeep { line: 2 }),
    (DEEP_BEHIND, TooDeep { line: 2 }),
];

const NINE: &str = "reo 2 connector c() {\nfor a = 0 to 1 {\nfor b = 0 to 1 {\nfor c = 0 to 1 {\n\
        for d = 0 to 1 {\nfor e = 0 to 1 {\nfor f = 0 to 1 {\nfor g = 0 to 1 {\n\
        for h = 0 to 1 {\nfor i = 0 to 1 { } } } } } } } } } }";

const NINE_BEHIND: &str =
    "reo 2 connector c() { for a = 0 to 1 { for b = 0 to 1 { for c = 0 to 1 { for d = 0 to 1 {\n\
        for e = 0 to 1 { for f = 0 to 1 { for g = 0 to 1 { for h = 0 to 1 {\nsync for for;\n\
        for i = 0 to 1 { } } } } } } } } } }";

const NINE_OPEN: &str =
    "reo 2 connector c() { for a = 0 to 1 { for b = 0 to 1 { for c = 0 to 1 { for d = 0 to 1 {\n\
        for e = 0 to 1 { for f = 0 to 1 { for g = 0 to 1 { for h = 0 to 1 {\nfor";

const NINE_LATE: &str =
    "reo 2 connector c() { for a = 0 to 1 { for b = 0 to 1 { for c = 0 to 1 { for d = 0 to 1 {\n\
        node x; for e = 0 to 1 { for f = 0 to 1 { for g = 0 to 1 { for h = 0 to 1 {\nfor";

const NINE_AT_ONCE: &str =
    "reo 2 connector c() { for a = 0 to 1 { for b = 0 to 1 { for c = 0 to 1 { for d = 0 to 1 {\n\
        for e = 0 to 1 { for f = 0 to 1 { for g = 0 to 1 { for h = 0 to 1 { sync a b\n\
        for i = 0 to 1 { } } } } } } } } } }";

const DEEP: &str = "reo 2 connector c() { for i = 0 to 1 { map a b to\n\
        ((((((((((((((((((((((((((((((((((((((((((((((((((((((((((((((((((it";

const DEEP_BEHIND: &str = "reo 2 connector c() { for i = 0 to n - 1 { map a b to \
        ----------------------------------------------------------------\n-it; } }";

#[test]
fn texts_are_refused_at_their_first_fault(rt: HostRuntime) {
    let alloc = rt.alloc();
    for (text, wanted) in REFUSED {
        let refused = match any_of(alloc, text) {
            Ok(_) => false,
            Err(fault) => fault == *wanted,
        };
        is(&rt, refused, text);
    }
}

/// Texts of version 2, and the line of their first token.
const SECOND: &[(&str, u32)] = &[("reo 2\n", 1), ("\n# none\nreo 2 connector c() {}", 3)];

#[test]
fn texts_of_version_2_are_none_of_version_1(rt: HostRuntime) {
    let alloc = rt.alloc();
    for (text, line) in SECOND {
        let refused = match first_of(alloc, text) {
            Ok(_) => false,
            Err(fault) => fault == Syntax { line: *line },
        };
        is(&rt, refused, text);
    }
}
