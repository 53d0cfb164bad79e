//! Texts of either version are read, and written in the one layout.
use crate::checks::is;
use crate::texts::any_of;
use reo_parser::ParseFault;
use reo_upgrade::print_any;
use std::alloc::Global;

/// Texts in the one layout, together with each form of the grammar: they are written as they are.
const CANONICAL: &[&str] = &[
    "",
    "connector for() {\n  node reo: unit;\n  sync shift variable;\n  use for(quota);\n}\n",
    "reo 2\n",
    "reo 2\ntype t = unit;\ntype u = pair(int -5..10, pair(text 3, t));\n",
    "reo 2\nconnector c() {\n}\nconnector main(in a: int 0..9, out b: sym { x, y }) {\n}\n",
    "reo 2\nconnector line<n>(in a: unit, out b: unit) {\n  node x.(n + 1): unit;\n  \
        sync a x.0;\n  for i = 0 to n - 1 {\n    fifo1 x.i x.(i + 1);\n  }\n  sync x.n b;\n}\n\
        connector main(in a: unit, out b: unit) {\n  use line<2>(a, b);\n}\n",
    "reo 2\nconnector c() {\n  sync a b;\n  lossy a.0 b;\n  syncdrain a b.1000000000;\n  \
        asyncdrain a.i b.(i - 1);\n  filter a.1 b when it;\n  map a b.1 to it + 1;\n}\n",
    "reo 2\nconnector c() {\n  fifo1 a.0 b;\n  fifo1 a b.0 with red;\n  fifo 3 a.0 b.1;\n  \
        fifo 12 a b with -1, (true,\"x \\\"\\\\\"), unit, 0;\n}\n",
    "reo 2\nconnector c() {\n  shift 1 a b;\n  shift 1024 a.0 b.1 with 1, 2;\n  variable a b;\n  \
        variable a.0 b.1 with (1,red);\n  quota 0 a b;\n  quota 1000000000 a.0 b.(0 - 1);\n}\n",
    "reo 2\nconnector c() {\n  node n: unit;\n  node m.(3): int 0..1;\n  node k.(n - 1): t;\n  \
        use e();\n  use e(x, y.0, y.(i + 1));\n  use e<0>();\n  use e<n - 1>(x);\n}\n",
    "reo 2\nconnector c() {\n  sync x.(1 + 2 - 3 + a - b + 0 - 1000000000 + c) y;\n}\n",
    "reo 2\nconnector c<n>() {\n  for i = 0 to n {\n  }\n  for j = i + 1 to i - 1 {\n    \
        for k = 0 to j {\n      use d<k>(x.k);\n    }\n    sync x.j y;\n  }\n}\n",
    "reo 2\nconnector c() {\n  for a = 0 to 1 {\n    for b = 0 to 1 {\n      \
        for c = 0 to 1 {\n        for d = 0 to 1 {\n          for e = 0 to 1 {\n            \
        for f = 0 to 1 {\n              for g = 0 to 1 {\n                \
        for h = 0 to 1 {\n                }\n              }\n            }\n          \
        }\n        }\n      }\n    }\n  }\n}\n",
    "reo 2\nconnector c() {\n  for i = 0 to n - 1 {\n    \
        map a b to ----------------------------------------------------------------it;\n  }\n}\n",
    "reo 2\nconnector for<for>() {\n  node for.(for): unit;\n  for for = for to for {\n    \
        sync for.for shift;\n    shift 1 shift shift;\n    variable variable variable;\n    \
        quota 1 quota quota;\n    use for<for>(for);\n  }\n}\nconnector reo() {\n}\n",
];

/// A text, and the one that it is written as.
const WRITTEN: &[(&str, &str)] = &[
    (
        "type t=unit;connector c(in a:t){lossy a b;}",
        "type t = unit;\nconnector c(in a: t) {\n  lossy a b;\n}\n",
    ),
    ("# none\nreo # two\n 02 # end", "reo 2\n"),
    (
        "reo 2 connector c<n>(in a:t,out b:t){node x.(n+1):t;sync a x.(0);sync x . 007 x.(i);}",
        "reo 2\nconnector c<n>(in a: t, out b: t) {\n  node x.(n + 1): t;\n  sync a x.0;\n  \
            sync x.7 x.i;\n}\n",
    ),
    (
        "reo 2 connector c(){for i=0 to n-1{for j = i to i{use e<n-1>(x.(j),y);}map a b to(it);}}",
        "reo 2\nconnector c() {\n  for i = 0 to n - 1 {\n    for j = i to i {\n      \
            use e<n - 1>(x.j, y);\n    }\n    map a b to it;\n  }\n}\n",
    ),
    (
        "reo 2 connector c(){shift 01 a b with 1,2;variable a b with(1,2);quota 00 a b;}",
        "reo 2\nconnector c() {\n  shift 1 a b with 1, 2;\n  variable a b with (1,2);\n  \
            quota 0 a b;\n}\n",
    ),
];

/// What a text is written as, if it is read.
fn is_written(alloc: Global, text: &str, wanted: &str) -> Result<bool, ParseFault> {
    let program = any_of(alloc, text)?;
    match print_any(alloc, &program) {
        Ok(written) => Ok(written.as_slice() == wanted.as_bytes()),
        Err(_) => Err(ParseFault::NoMemory),
    }
}

#[test]
fn canonical_texts_are_written_as_they_are(rt: HostRuntime) {
    let alloc = rt.alloc();
    for text in CANONICAL {
        is(&rt, matches!(is_written(alloc, text, text), Ok(true)), text);
    }
}

#[test]
fn other_texts_are_written_in_the_one_layout(rt: HostRuntime) {
    let alloc = rt.alloc();
    for (text, wanted) in WRITTEN {
        is(
            &rt,
            matches!(is_written(alloc, text, wanted), Ok(true)),
            text,
        );
    }
}
