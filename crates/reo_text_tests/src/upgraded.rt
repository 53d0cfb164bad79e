//! Texts of either version are written as ones of version 2.
use crate::checks::is;
use crate::texts::any_of;
use reo_parser::ParseFault;
use reo_upgrade::upgrade;
use std::alloc::Global;

/// A text, and the one of version 2 that says the same: small texts, an exclusive router, and a
/// sequencer.
const UPGRADED: &[(&str, &str)] = &[
    ("", "reo 2\n"),
    (
        "connector main(in a: int 0..9, out b: int 0..9) {\n  sync a b;\n}\n",
        "reo 2\nconnector main(in a: int 0..9, out b: int 0..9) {\n  sync a b;\n}\n",
    ),
    (
        "type t = sym { red, green };\nconnector e(in x: t) { node y: t; fifo1 x y with red; }\n\
            connector c() { node n: t; use e(n); use c(); }",
        "reo 2\ntype t = sym { red, green };\nconnector e(in x: t) {\n  node y: t;\n  \
            fifo1 x y with red;\n}\nconnector c() {\n  node n: t;\n  use e(n);\n  use c();\n}\n",
    ),
    (
        "connector c() { lossy a b; syncdrain a b; asyncdrain a b; filter a b when (it > 0); map \
            a b to -(it); fifo 2 a b with 1, 2; fifo 2 a b; fifo1 a b; use e(x, y, z); }",
        "reo 2\nconnector c() {\n  lossy a b;\n  syncdrain a b;\n  asyncdrain a b;\n  \
            filter a b when it > 0;\n  map a b to -it;\n  fifo 2 a b with 1, 2;\n  \
            fifo 2 a b;\n  fifo1 a b;\n  use e(x, y, z);\n}\n",
    ),
    (
        "connector main(in source: int 0..9, out left: int 0..9, out right: int 0..9) {\n  \
            node to_left: int 0..9;\n  node to_right: int 0..9;\n  node chosen: int 0..9;\n  \
            lossy source to_left;\n  lossy source to_right;\n  sync to_left left;\n  \
            sync to_left chosen;\n  sync to_right right;\n  sync to_right chosen;\n  \
            syncdrain source chosen;\n}\n",
        "reo 2\n\
            connector main(in source: int 0..9, out left: int 0..9, out right: int 0..9) {\n  \
            node to_left: int 0..9;\n  node to_right: int 0..9;\n  node chosen: int 0..9;\n  \
            lossy source to_left;\n  lossy source to_right;\n  sync to_left left;\n  \
            sync to_left chosen;\n  sync to_right right;\n  sync to_right chosen;\n  \
            syncdrain source chosen;\n}\n",
    ),
    (
        "connector main(in a: int 0..9, in b: int 0..9, in c: int 0..9, in d: int 0..9) {\n  \
            node w: unit; node x: unit; node y: unit; node z: unit;\n  \
            fifo1 z w with unit; fifo1 w x; fifo1 x y; fifo1 y z;\n  \
            syncdrain a w; syncdrain b x; syncdrain c y; syncdrain d z;\n}\n",
        "reo 2\n\
            connector main(in a: int 0..9, in b: int 0..9, in c: int 0..9, in d: int 0..9) {\n  \
            node w: unit;\n  node x: unit;\n  node y: unit;\n  node z: unit;\n  \
            fifo1 z w with unit;\n  fifo1 w x;\n  fifo1 x y;\n  fifo1 y z;\n  syncdrain a w;\n  \
            syncdrain b x;\n  syncdrain c y;\n  syncdrain d z;\n}\n",
    ),
    (
        "reo 2 connector c<n>() { sync x.(n) y; }",
        "reo 2\nconnector c<n>() {\n  sync x.n y;\n}\n",
    ),
];

fn is_upgraded(alloc: Global, text: &str, wanted: &str) -> Result<bool, ParseFault> {
    let program = any_of(alloc, text)?;
    match upgrade(alloc, &program) {
        Ok(written) => Ok(written.as_slice() == wanted.as_bytes()),
        Err(_) => Err(ParseFault::NoMemory),
    }
}

#[test]
fn texts_are_written_as_ones_of_version_2(rt: HostRuntime) {
    let alloc = rt.alloc();
    for (text, wanted) in UPGRADED {
        is(
            &rt,
            matches!(is_upgraded(alloc, text, wanted), Ok(true)),
            text,
        );
    }
}
