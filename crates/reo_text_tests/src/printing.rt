//! Canonical texts are their own canonical texts.
use crate::checks::is;
use crate::lines::program_of;
use reo_parser::ParseFault;
use reo_syntax::print;
use std::alloc::Global;

/// Texts in the one layout, together with each form of the grammar.
const TEXTS: &[&str] = &[
    "",
    "type t = unit;\ntype t = bool;\ntype t = sym { red, green };\n",
    "type t = pair(int -5..10, pair(text 3, t));\n",
    "connector main(in a: int 0..9, out b: int 0..9) {\n  sync a b;\n}\nconnector x() {\n}\n",
    "connector c() {\n  node n: unit;\n  use e(x, y);\n  use e();\n}\n",
    "connector c() {\n  lossy a b;\n  syncdrain a b;\n  asyncdrain a b;\n  filter a b when it;\n\
        }\n",
    "connector c() {\n  fifo1 a b;\n  fifo1 a b with red;\n  fifo 3 a b;\n  \
        fifo 12 a b with -1, (true,\"x \\\"\\\\\"), unit, 0;\n}\n",
    "connector c() {\n  map a b to (it + 1) * (2 * it);\n  map a b to it - (2 - 3);\n  \
        map a b to it - 2 - 3;\n}\n",
    "connector c() {\n  map a b to if(it >= 1, t.red, \"a\\\"b\\\\\");\n  \
        map a b to first(((it, 2), 3));\n}\n",
];

/// Whether the text is the canonical text of its program.
fn is_canonical(alloc: Global, text: &str) -> Result<bool, ParseFault> {
    let program = program_of(alloc, text)?;
    match print(alloc, &program) {
        Ok(printed) => Ok(printed.as_slice() == text.as_bytes()),
        Err(_) => Err(ParseFault::NoMemory),
    }
}

#[test]
fn canonical_texts_are_printed_as_they_are(rt: HostRuntime) {
    let alloc = rt.alloc();
    for text in TEXTS {
        is(&rt, matches!(is_canonical(alloc, text), Ok(true)), text);
    }
}
