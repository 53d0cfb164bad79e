//! Loops, turn by turn.
use crate::expand_tests::rows::{Answer, Row, all_stand_for};

const ROWS: &[Row] = &[
    Row(
        "reo 2 connector m() { for i = 1 to 3 { use e(x.i); } }",
        Answer::Text("connector m() {\n  use e(x.1);\n  use e(x.2);\n  use e(x.3);\n}\n"),
    ),
    // From below zero, and one turn.
    Row(
        "reo 2 connector m() { for i = 0 - 1 + 0 to 1 { use e(x.i); } for i = 4 to 4 { use \
            f(x.i); } }",
        Answer::Text(
            "connector m() {\n  use e(x.-1);\n  use e(x.0);\n  use e(x.1);\n  use f(x.4);\n}\n",
        ),
    ),
    // No turn: what stands inside is not judged.
    Row(
        "reo 2 connector m() { for i = 2 to 1 { use c<5000>(x.q); } for i = 9 to 0 { sync x.i y; \
            } }",
        Answer::Text("connector m() {\n}\n"),
    ),
    // The bounds lie outside of the loop's own variable, and the innermost variable counts.
    Row(
        "reo 2 connector m() { for i = 1 to 2 { for i = i to i + 1 { use e(x.i); } use f(x.i); } }",
        Answer::Text(
            "connector m() {\n  use e(x.1);\n  use e(x.2);\n  use f(x.1);\n  use e(x.2);\n  \
                use e(x.3);\n  use f(x.2);\n}\n",
        ),
    ),
    // A variable hides the connector's number, until the loop ends.
    Row(
        "reo 2 connector c<n>() { for n = 0 to 1 { use e(x.n); } use f(x.n); } connector m() { \
            use c<7>(); }",
        Answer::Text(
            "connector c<7>() {\n  use e(x.0);\n  use e(x.1);\n  use f(x.7);\n}\n\
                connector m() {\n  use c<7>();\n}\n",
        ),
    ),
    // Loops in loops, and items behind them.
    Row(
        "reo 2 connector m() { for i = 0 to 1 { fifo 2 a.i b.(i + 1) with 1, 2; for j = i to 1 { \
            use c<i + j>(x.(i - j)); } } sync p q; }",
        Answer::Text(
            "connector m() {\n  fifo 2 a.0 b.1 with 1, 2;\n  use c<0>(x.0);\n  \
                use c<1>(x.-1);\n  fifo 2 a.1 b.2 with 1, 2;\n  use c<2>(x.0);\n  sync p q;\n}\n",
        ),
    ),
    // Eight loops, one in another.
    Row(
        "reo 2 connector m() { for a = 1 to 1 { for b = a to 1 { for c = b to 1 { for d = c to 1 \
            { for e = d to 1 { for f = e to 1 { for g = f to 1 { for h = g to 2 { use k(x.(a + b \
            + c + d + e + f + g + h)); } } } } } } } } }",
        Answer::Text("connector m() {\n  use k(x.8);\n  use k(x.9);\n}\n"),
    ),
];

#[test]
fn loops_are_taken_turn_by_turn(rt: HostRuntime) {
    all_stand_for(&rt, rt.alloc(), ROWS);
}
