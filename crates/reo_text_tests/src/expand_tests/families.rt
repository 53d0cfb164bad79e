//! Connectors with a number, and which copies of them are made.
use crate::expand_tests::rows::{Answer, Row, all_stand_for};

const ROWS: &[Row] = &[
    Row(
        "reo 2\nconnector line<n>(in a: unit, out b: unit) {\n  node x.(n + 1): unit;\n  \
            sync a x.0;\n  for i = 0 to n - 1 { fifo1 x.i x.(i + 1); }\n  sync x.n b;\n}\n\
            connector main(in a: unit, out b: unit) { use line<2>(a, b); }\n",
        Answer::Text(
            "connector line<2>(in a: unit, out b: unit) {\n  node x.0: unit;\n  \
                node x.1: unit;\n  node x.2: unit;\n  sync a x.0;\n  fifo1 x.0 x.1;\n  \
                fifo1 x.1 x.2;\n  sync x.2 b;\n}\nconnector main(in a: unit, out b: unit) {\n  \
                use line<2>(a, b);\n}\n",
        ),
    ),
    Row(
        "reo 2\nconnector line<n>(in a: unit, out b: unit) {\n  node x.(n + 1): unit;\n  \
            sync a x.0;\n  for i = 0 to n - 1 { fifo1 x.i x.(i + 1); }\n  sync x.n b;\n}\n\
            connector main(in a: unit, out b: unit) { use line<0>(a, b); }\n",
        Answer::Text(
            "connector line<0>(in a: unit, out b: unit) {\n  node x.0: unit;\n  sync a x.0;\n  \
                sync x.0 b;\n}\nconnector main(in a: unit, out b: unit) {\n  use line<0>(a, b);\n\
                }\n",
        ),
    ),
    // Each number once, in increasing order, whatever the order of the uses.
    Row(
        "reo 2 connector c<n>() { use e(x.n); } connector m() { use c<10>(); use c<2>(); use \
            c<4096>(); use c<0>(); use c<2>(); }",
        Answer::Text(
            "connector c<0>() {\n  use e(x.0);\n}\nconnector c<2>() {\n  use e(x.2);\n}\n\
                connector c<10>() {\n  use e(x.10);\n}\nconnector c<4096>() {\n  use e(x.4096);\n\
                }\nconnector m() {\n  use c<10>();\n  use c<2>();\n  use c<4096>();\n  \
                use c<0>();\n  use c<2>();\n}\n",
        ),
    ),
    // Copies ask for copies of what stands before them.
    Row(
        "reo 2 connector d<k>() { use e(y.k); } connector c<n>() { use d<n - 1>(); use d<n + \
            1>(); } connector m() { use c<1>(); use c<3>(); }",
        Answer::Text(
            "connector d<0>() {\n  use e(y.0);\n}\nconnector d<2>() {\n  use e(y.2);\n}\n\
                connector d<4>() {\n  use e(y.4);\n}\nconnector c<1>() {\n  use d<0>();\n  \
                use d<2>();\n}\nconnector c<3>() {\n  use d<2>();\n  use d<4>();\n}\n\
                connector m() {\n  use c<1>();\n  use c<3>();\n}\n",
        ),
    ),
    // One that nothing behind uses is left out and not judged.
    Row(
        "reo 2 connector c<n>() { node x.(0): unit; use e(x.q); } connector m() { }",
        Answer::Text("connector m() {\n}\n"),
    ),
    // A use in a connector of the name itself, or before it, makes no copy.
    Row(
        "reo 2 connector m() { use c<1>(); } connector c<n>() { use c<n - 1>(); } connector l() \
            { use c<3>(); }",
        Answer::Text(
            "connector m() {\n  use c<1>();\n}\nconnector c<3>() {\n  use c<2>();\n}\n\
                connector l() {\n  use c<3>();\n}\n",
        ),
    ),
    // A connector of one name with a number and one without serve their own uses.
    Row(
        "reo 2 connector c() { use e(p); } connector c<n>() { use e(x.n); } connector m() { use \
            c(); use c<7>(); }",
        Answer::Text(
            "connector c() {\n  use e(p);\n}\nconnector c<7>() {\n  use e(x.7);\n}\n\
                connector m() {\n  use c();\n  use c<7>();\n}\n",
        ),
    ),
    // Two families of one name are copied both.
    Row(
        "reo 2 connector c<n>() { use e(x.n); } connector c<k>() { use c<k + 1>(); } connector \
            m() { use c<5>(); }",
        Answer::Text(
            "connector c<5>() {\n  use e(x.5);\n}\nconnector c<6>() {\n  use e(x.6);\n}\n\
                connector c<5>() {\n  use c<6>();\n}\nconnector m() {\n  use c<5>();\n}\n",
        ),
    ),
    // What is no connector stays where it stands, and parameters are copied.
    Row(
        "reo 2 type t = int 0..9; connector c<n>(in a: t, out b: pair(t, bool)) { sync a b; } \
            type u = t; connector m() { use c<1>(p, q); use c<2>(p, q); } type v = u;",
        Answer::Text(
            "type t = int 0..9;\nconnector c<1>(in a: t, out b: pair(t, bool)) {\n  sync a b;\n\
                }\nconnector c<2>(in a: t, out b: pair(t, bool)) {\n  sync a b;\n}\ntype u = t;\n\
                connector m() {\n  use c<1>(p, q);\n  use c<2>(p, q);\n}\ntype v = u;\n",
        ),
    ),
    Row("reo 2", Answer::Text("")),
];

#[test]
fn families_are_copied(rt: HostRuntime) {
    all_stand_for(&rt, rt.alloc(), ROWS);
}
