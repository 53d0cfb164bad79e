//! The first refusal that is met.
use crate::expand_tests::rows::{Answer, Row, all_stand_for};

const ROWS: &[Row] = &[
    Row(
        "reo 2\nconnector line<n>(in a: unit, out b: unit) {\n  node x.(n + 1): unit;\n  \
            sync a x.0;\n  for i = 0 to n - 1 { fifo1 x.i x.(i + 1); }\n  sync x.n b;\n}\n\
            connector main(in a: unit, out b: unit) { use line<0 - 1>(a, b); }\n",
        Answer::Index(8),
    ),
    Row(
        "reo 2\nconnector line<n>(in a: unit, out b: unit) {\n  node x.(n + 1): unit;\n  \
            sync a x.0;\n  for i = 0 to n - 1 { fifo1 x.i x.(i + 1); }\n  sync x.n b;\n}\n\
            connector main(in a: unit, out b: unit) { use line(a, b); }\n",
        Answer::Number(8),
    ),
    Row(
        "reo 2\nconnector line<n>(in a: unit, out b: unit) {\n  node x.(n + 1): unit;\n  \
            sync a x.0;\n  for i = 0 to n - 1 { fifo1 x.i x.(i + 1); }\n  sync x.m b;\n}\n\
            connector main(in a: unit, out b: unit) { use line<2>(a, b); }\n",
        Answer::Unbound(6, "m"),
    ),
    // Sizes of arrays are 1 to 4,096, numbers of uses 0 to 4,096.
    Row(
        "reo 2\nconnector m() {\n node x.(0): unit; }",
        Answer::Index(3),
    ),
    Row(
        "reo 2\nconnector m() {\n node x.(4097): unit; }",
        Answer::Index(3),
    ),
    Row(
        "reo 2\nconnector m() {\n node x.(1 - 2): unit; }",
        Answer::Index(3),
    ),
    Row(
        "reo 2\nconnector m() {\n use c<4097>(); }",
        Answer::Index(3),
    ),
    Row(
        "reo 2\nconnector m() {\n use c<0 - 1>(); }",
        Answer::Index(3),
    ),
    // Within an item indexes are judged from left to right, a name before a value, then the
    // number of the use.
    Row(
        "reo 2\nconnector m() {\n use c<5000>(x.q); }",
        Answer::Index(3),
    ),
    Row(
        "reo 2\nconnector m() {\n use c<q + 5000>(x.p); }",
        Answer::Unbound(3, "q"),
    ),
    Row(
        "reo 2\nconnector m() {\n sync x.p x.q; }",
        Answer::Unbound(3, "p"),
    ),
    Row(
        "reo 2\nconnector m() {\n sync x.1 x.(1 + q + p); }",
        Answer::Unbound(3, "q"),
    ),
    Row(
        "reo 2\nconnector m() {\n node x.(q + 9000): unit; }",
        Answer::Unbound(3, "q"),
    ),
    Row(
        "reo 2\nconnector c<n>() { }\nconnector m() {\n use c(x.q); }",
        Answer::Unbound(4, "q"),
    ),
    Row(
        "reo 2\nconnector c() { }\nconnector m() {\n use c<5000>(); }",
        Answer::Index(4),
    ),
    // A use with a number wants a connector with one before it, and one without wants one without.
    Row(
        "reo 2\nconnector c() { }\nconnector m() {\n use c<1>(); }",
        Answer::Number(4),
    ),
    Row(
        "reo 2\nconnector c() { }\nconnector c() { }\nconnector m() {\n use c<1>(); }",
        Answer::Number(5),
    ),
    Row(
        "reo 2\nconnector m() {\n use c<1>(); }\nconnector c<n>() {\n use c(); }\n\
            connector l() { use c<1>(); }",
        Answer::Text(
            "connector m() {\n  use c<1>();\n}\nconnector c<1>() {\n  use c();\n}\n\
                connector l() {\n  use c<1>();\n}\n",
        ),
    ),
    Row(
        "reo 2\nconnector c<n>() { }\nconnector c<n>() {\n use c(); }\n\
            connector m() { use c<1>(); }",
        Answer::Number(4),
    ),
    // Connectors are walked from the last to the first.
    Row(
        "reo 2\nconnector l() {\n sync x.p y; }\nconnector m() {\n sync x.q y; }",
        Answer::Unbound(5, "q"),
    ),
    // And copies in increasing order of their numbers.
    Row(
        "reo 2\nconnector c<n>() {\n for i = n to 2 {\n use d<i + 4095>(); }\n \
            node x.(4 - n): unit;\n}\nconnector m() { use c<4>(); use c<2>(); }",
        Answer::Index(4),
    ),
    Row(
        "reo 2\nconnector c<n>() {\n for i = n to 2 {\n use d<i + 4095>(); }\n \
            node x.(4 - n): unit;\n}\nconnector m() { use c<4>(); use c<3>(); }",
        Answer::Index(5),
    ),
    // The line is that of the innermost item that holds the index; bounds of a loop are judged
    // before its turns, and lie outside of its variable.
    Row(
        "reo 2\nconnector m() {\n for i = 0 to 1 {\n sync x.(i + q) y; } }",
        Answer::Unbound(4, "q"),
    ),
    Row(
        "reo 2\nconnector m() {\n for i = i to 1 {\n sync x.q y; } }",
        Answer::Unbound(3, "i"),
    ),
    Row(
        "reo 2\nconnector m() {\n for i = 0 to q {\n sync x.p y; } }",
        Answer::Unbound(3, "q"),
    ),
    Row(
        "reo 2\nconnector m() {\n for i = p to q {\n } }",
        Answer::Unbound(3, "p"),
    ),
    // Behind a loop its variable has no value.
    Row(
        "reo 2\nconnector m() {\n for i = 0 to 1 { }\n sync x.i y; }",
        Answer::Unbound(4, "i"),
    ),
    // A number of another connector is none here.
    Row(
        "reo 2\nconnector c<n>() { }\nconnector m() {\n use c<n>(); }",
        Answer::Unbound(4, "n"),
    ),
];

#[test]
fn the_first_refusal_is_met(rt: HostRuntime) {
    all_stand_for(&rt, rt.alloc(), ROWS);
}
