//! Programs of version 1, lifted.
use crate::expand_tests::checks::is;
use crate::expand_tests::rows::is_text;
use reo_expand::{
    expand, expanded_or_refused, lift, lifted_is_walked, lifted_stands_for_itself, one_expansion,
};
use reo_parser::{each_text_of_any_is_answered, parse_any};
use reo_trees::{AnyProgram, loops_by_last_tokens, loops_by_trees};
use std::alloc::Global;

/// Canonical texts of version 1.
const TEXTS: &[&str] = &[
    "",
    "type t = pair(int -5..10, pair(text 3, bool));\ntype u = sym { red, green };\n",
    "connector c(in a: int 0..9, out b: unit) {\n  node n: unit;\n  sync a n;\n  \
        fifo 3 n b with 1, 2;\n}\nconnector main(in x: int 0..9) {\n  use c(x, y);\n  use c();\n\
        }\n",
];

/// Whether a program of version 1 stands for itself as one of version 2.
fn stands_for_itself(alloc: Global, text: &str) -> bool {
    if text.len() >= 65536 {
        return false;
    }
    let Ok(AnyProgram::One(program)) = parse_any(alloc, text.as_bytes()) else {
        return false;
    };
    let Ok(lifted) = lift(alloc, &program) else {
        return false;
    };
    match expand(alloc, &lifted) {
        Ok(expansion) => is_text(alloc, &expansion, text),
        Err(_) => false,
    }
}

#[test]
fn lifted_programs_stand_for_themselves(rt: HostRuntime) {
    for text in TEXTS {
        is(&rt, stands_for_itself(rt.alloc(), text), text);
    }
}

#[test]
fn laws_can_be_called(_rt: HostRuntime) {
    one_expansion();
    expanded_or_refused();
    lifted_stands_for_itself();
    lifted_is_walked();
    each_text_of_any_is_answered();
    loops_by_last_tokens();
    loops_by_trees();
}
