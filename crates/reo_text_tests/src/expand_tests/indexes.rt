//! Indexes: their values, and the names that they give.
use crate::expand_tests::rows::{Answer, Row, all_stand_for};

const ROWS: &[Row] = &[
    // The forms of a place, which is one unit or an index in brackets.
    Row(
        "reo 2 connector c<n>() { use e(x, x.3, x.(3), x.n, x.(n), x.(n - 1 + 2 - n)); } \
            connector m() { use c<5>(); }",
        Answer::Text(
            "connector c<5>() {\n  use e(x, x.3, x.3, x.5, x.5, x.1);\n}\nconnector m() {\n  \
                use c<5>();\n}\n",
        ),
    ),
    // Eight units of the greatest number, up and down.
    Row(
        "reo 2 connector m() { use e(x.1000000000, x.(1000000000 + 1000000000 + 1000000000 + \
            1000000000 + 1000000000 + 1000000000 + 1000000000 + 1000000000), x.(0 - 1000000000 - \
            1000000000 - 1000000000 - 1000000000 - 1000000000 - 1000000000 - 1000000000)); }",
        Answer::Text("connector m() {\n  use e(x.1000000000, x.8000000000, x.-7000000000);\n}\n"),
    ),
    // An array has the nodes from 0 on; a node without a size is one.
    Row(
        "reo 2 connector m() { node x.(3): int 0..9; node y: bool; node z.(2 - 1): sym { red, \
            blue }; }",
        Answer::Text(
            "connector m() {\n  node x.0: int 0..9;\n  node x.1: int 0..9;\n  \
                node x.2: int 0..9;\n  node y: bool;\n  node z.0: sym { red, blue };\n}\n",
        ),
    ),
    // The number of a use, with numbers in its arguments too.
    Row(
        "reo 2 connector m() { use c<0>(); use c<4096>(a.1, b); use c<1 + 2>(a.(1 + 2)); }",
        Answer::Text(
            "connector m() {\n  use c<0>();\n  use c<4096>(a.1, b);\n  use c<3>(a.3);\n}\n",
        ),
    ),
];

#[test]
fn indexes_have_values(rt: HostRuntime) {
    all_stand_for(&rt, rt.alloc(), ROWS);
}
