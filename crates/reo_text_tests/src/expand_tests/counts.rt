//! Items and turns are counted, and at most 65,536 of them are made.
use crate::expand_tests::rows::{Answer, Row, all_stand_for};

const ROWS: &[Row] = &[
    // 65,536 turns, and one more.
    Row(
        "reo 2 connector m() { for i = 1 to 65536 { } }",
        Answer::Text("connector m() {\n}\n"),
    ),
    Row(
        "reo 2 connector m() { for i = 1 to 65537 { } }",
        Answer::TooMany,
    ),
    Row(
        "reo 2 connector m() { for i = 0 to 1000000000 { } }",
        Answer::TooMany,
    ),
    // An array counts its size.
    Row(
        "reo 2 connector m() { for i = 1 to 61440 { } node x.(4096): unit; use e(); }",
        Answer::TooMany,
    ),
    Row(
        "reo 2 connector c<n>() { for i = 1 to 65535 { } } connector m() { use c<1>(); }",
        Answer::Text("connector c<1>() {\n}\nconnector m() {\n  use c<1>();\n}\n"),
    ),
    Row(
        "reo 2 connector c<n>() { for i = 1 to 65536 { } } connector m() { use c<1>(); }",
        Answer::TooMany,
    ),
    // Over all copies.
    Row(
        "reo 2 connector c<n>() { for i = 1 to 32767 { } } connector m() { use c<1>(); use \
            c<2>(); }",
        Answer::Text(
            "connector c<1>() {\n}\nconnector c<2>() {\n}\nconnector m() {\n  use c<1>();\n  \
                use c<2>();\n}\n",
        ),
    ),
    Row(
        "reo 2 connector c<n>() { for i = 1 to 32767 { } use e(); } connector m() { use c<1>(); \
            use c<2>(); }",
        Answer::TooMany,
    ),
    // The indexes of an item are judged before it is counted, and a turn is counted before its
    // body.
    Row(
        "reo 2\nconnector m() { for i = 1 to 65536 { }\n node x.(0): unit; }",
        Answer::Index(3),
    ),
    Row(
        "reo 2\nconnector m() { for i = 1 to 65536 { }\n node x: unit; }",
        Answer::TooMany,
    ),
    Row(
        "reo 2\nconnector m() { for i = 1 to 65536 { }\n for j = 1 to 1 {\n sync x.q y; } }",
        Answer::TooMany,
    ),
    Row(
        "reo 2\nconnector m() { for i = 1 to 65536 { }\n for j = 2 to q {\n sync x.q y; } }",
        Answer::Unbound(3, "q"),
    ),
    Row(
        "reo 2\nconnector c() { }\nconnector m() { for i = 1 to 65536 { }\n use c<1>(); }",
        Answer::Number(4),
    ),
    Row(
        "reo 2\nconnector m() { for i = 1 to 65535 { for j = 2 to 1 { } }\n for j = 1 to 2 { } }",
        Answer::TooMany,
    ),
];

#[test]
fn items_and_turns_are_counted(rt: HostRuntime) {
    all_stand_for(&rt, rt.alloc(), ROWS);
}
