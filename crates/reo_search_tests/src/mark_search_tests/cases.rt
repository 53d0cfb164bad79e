//! The circuits of the tests.
use crate::mark_search_tests::building::Piece::{
    self, AsyncDrain, Lossy, Merger, Replicator, Sync, SyncDrain, Taker, ThreeWays, Writer,
};

/// A circuit, of which the first so many primitives are ports.
#[derive(Clone, Copy)]
pub struct Case {
    pub ports: usize,
    /// Whether each search of it comes to something.
    pub is_known: bool,
    pub pieces: &'static [Piece],
    pub joints: &'static [[usize; 4]],
}

/// The circuits whose first colourings are looked for in each state of their ports.
pub const CASES: &[Case] = &[
    // one synchronous channel
    Case {
        ports: 2,
        is_known: true,
        pieces: &[Writer, Taker, Sync],
        joints: &[[0, 0, 2, 0], [2, 1, 1, 0]],
    },
    // a lossy channel
    Case {
        ports: 2,
        is_known: true,
        pieces: &[Writer, Taker, Lossy],
        joints: &[[0, 0, 2, 0], [2, 1, 1, 0]],
    },
    // two writers that take turns
    Case {
        ports: 3,
        is_known: true,
        pieces: &[Writer, Writer, Taker, Merger],
        joints: &[[0, 0, 3, 0], [1, 0, 3, 1], [3, 2, 2, 0]],
    },
    // one of two writers at a time
    Case {
        ports: 2,
        is_known: true,
        pieces: &[Writer, Writer, AsyncDrain],
        joints: &[[0, 0, 2, 0], [1, 0, 2, 1]],
    },
    // a broadcast
    Case {
        ports: 3,
        is_known: true,
        pieces: &[Writer, Taker, Taker, Replicator, Lossy],
        joints: &[[0, 0, 3, 0], [3, 1, 1, 0], [3, 2, 4, 0], [4, 1, 2, 0]],
    },
    // drains on one port: by the first nothing can flow, which no set of marks tells
    Case {
        ports: 1,
        is_known: false,
        pieces: &[Writer, AsyncDrain, Replicator],
        joints: &[[0, 0, 2, 0], [2, 1, 1, 0], [2, 2, 1, 1]],
    },
    Case {
        ports: 1,
        is_known: true,
        pieces: &[Writer, SyncDrain, Replicator],
        joints: &[[0, 0, 2, 0], [2, 1, 1, 0], [2, 2, 1, 1]],
    },
    // the exclusive router
    Case {
        ports: 3,
        is_known: true,
        pieces: &[
            Writer, Taker, Taker, Lossy, Lossy, Sync, Sync, Sync, Sync, SyncDrain, ThreeWays,
            Replicator, Replicator, Merger,
        ],
        joints: &[
            [0, 0, 10, 0],
            [10, 1, 3, 0],
            [10, 2, 4, 0],
            [10, 3, 9, 0],
            [3, 1, 11, 0],
            [4, 1, 12, 0],
            [11, 1, 5, 0],
            [11, 2, 6, 0],
            [12, 1, 7, 0],
            [12, 2, 8, 0],
            [5, 1, 1, 0],
            [7, 1, 2, 0],
            [6, 1, 13, 0],
            [8, 1, 13, 1],
            [13, 2, 9, 1],
        ],
    },
];
