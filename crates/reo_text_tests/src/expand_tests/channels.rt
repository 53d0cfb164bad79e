//! Each channel of version 2, copied.
use crate::expand_tests::rows::{Answer, Row, all_stand_for};

const ROWS: &[Row] = &[
    Row(
        "reo 2 connector m() { for i = 1 to 1 { sync a.i b; lossy a b.i; syncdrain a.i b.i; \
            asyncdrain a b; } }",
        Answer::Text(
            "connector m() {\n  sync a.1 b;\n  lossy a b.1;\n  syncdrain a.1 b.1;\n  \
                asyncdrain a b;\n}\n",
        ),
    ),
    Row(
        "reo 2 connector m() { for i = 1 to 1 { filter a.i b when it > 3 && !(it == 4); map a \
            b.i to if(it >= 1, t.red, \"a\"); map a.i b.i to first((it, 2)); } }",
        Answer::Text(
            "connector m() {\n  filter a.1 b when it > 3 && !(it == 4);\n  \
                map a b.1 to if(it >= 1, t.red, \"a\");\n  map a.1 b.1 to first((it, 2));\n}\n",
        ),
    ),
    Row(
        "reo 2 connector m() { for i = 1 to 1 { fifo1 a.i b; fifo1 a b.i with red; fifo 3 a.i \
            b.i; fifo 12 a b with -1, (true, \"x\"), unit; } }",
        Answer::Text(
            "connector m() {\n  fifo1 a.1 b;\n  fifo1 a b.1 with red;\n  fifo 3 a.1 b.1;\n  \
                fifo 12 a b with -1, (true,\"x\"), unit;\n}\n",
        ),
    ),
    Row(
        "reo 2 connector m() { for i = 1 to 1 { shift 2 a.i b; shift 1024 a b.i with 1, 2; \
            variable a.i b.i; variable a b with (1, 2); quota 0 a.i b; quota 1000000000 a b.i; } \
            }",
        Answer::Text(
            "connector m() {\n  shift 2 a.1 b;\n  shift 1024 a b.1 with 1, 2;\n  \
                variable a.1 b.1;\n  variable a b with (1,2);\n  quota 0 a.1 b;\n  \
                quota 1000000000 a b.1;\n}\n",
        ),
    ),
    // The same behind one another, outside of loops, and names that begin loops elsewhere.
    Row(
        "reo 2 connector for(in reo: unit, out shift: unit) { node quota: unit; sync reo quota; \
            fifo1 quota variable; use for(reo, shift); }",
        Answer::Text(
            "connector for(in reo: unit, out shift: unit) {\n  node quota: unit;\n  \
                sync reo quota;\n  fifo1 quota variable;\n  use for(reo, shift);\n}\n",
        ),
    ),
];

#[test]
fn channels_are_copied(rt: HostRuntime) {
    all_stand_for(&rt, rt.alloc(), ROWS);
}
