//! The shapes of worked circuits: how many of the primitives are ports, and the joints, each a
//! giver's primitive and end, and then a taker's.

/// A shape.
#[derive(Clone, Copy)]
pub struct Shape {
    pub ports: usize,
    pub joints: &'static [[usize; 4]],
}

/// A channel between a writer and a taker.
pub const BETWEEN: Shape = Shape {
    ports: 2,
    joints: &[[0, 0, 2, 0], [2, 1, 1, 0]],
};

/// Two channels in a row.
pub const CHAINED: Shape = Shape {
    ports: 2,
    joints: &[[0, 0, 2, 0], [2, 1, 3, 0], [3, 1, 1, 0]],
};

/// A channel that takes from two writers.
pub const DRAINED: Shape = Shape {
    ports: 2,
    joints: &[[0, 0, 2, 0], [1, 0, 2, 1]],
};

/// A channel that takes both outputs of a replicator.
pub const DOUBLED: Shape = Shape {
    ports: 1,
    joints: &[[0, 0, 2, 0], [2, 1, 1, 0], [2, 2, 1, 1]],
};

/// Two writers before a merger.
pub const MERGED: Shape = Shape {
    ports: 3,
    joints: &[[0, 0, 3, 0], [1, 0, 3, 1], [3, 2, 2, 0]],
};

/// Three writers before a merger.
pub const MERGED3: Shape = Shape {
    ports: 4,
    joints: &[[0, 0, 4, 0], [1, 0, 4, 1], [2, 0, 4, 2], [4, 3, 3, 0]],
};

/// A replicator to two takers.
pub const COPIED: Shape = Shape {
    ports: 3,
    joints: &[[0, 0, 3, 0], [3, 1, 1, 0], [3, 2, 2, 0]],
};

/// A replicator to two channels, each to a taker.
pub const ROUTED: Shape = Shape {
    ports: 3,
    joints: &[
        [0, 0, 5, 0],
        [5, 1, 3, 0],
        [5, 2, 4, 0],
        [3, 1, 1, 0],
        [4, 1, 2, 0],
    ],
};

/// Two channels beside each other.
pub const TWO: Shape = Shape {
    ports: 4,
    joints: &[[0, 0, 4, 0], [4, 1, 1, 0], [2, 0, 5, 0], [5, 1, 3, 0]],
};

/// Writers a and b before the first merger, whose output stands with writer c before the second.
pub const BEFORE: Shape = Shape {
    ports: 4,
    joints: &[
        [0, 0, 4, 0],
        [1, 0, 4, 1],
        [4, 2, 5, 0],
        [2, 0, 5, 1],
        [5, 2, 3, 0],
    ],
};

/// Writers a and b before the second merger, whose output stands with writer c before the first.
pub const BEHIND: Shape = Shape {
    ports: 4,
    joints: &[
        [0, 0, 5, 0],
        [1, 0, 5, 1],
        [5, 2, 4, 0],
        [2, 0, 4, 1],
        [4, 2, 3, 0],
    ],
};

/// Two channels from a replicator to a merger, beside one channel.
pub const JAMMED: Shape = Shape {
    ports: 4,
    joints: &[
        [0, 0, 7, 0],
        [7, 1, 4, 0],
        [7, 2, 5, 0],
        [4, 1, 8, 0],
        [5, 1, 8, 1],
        [8, 2, 1, 0],
        [2, 0, 6, 0],
        [6, 1, 3, 0],
    ],
};

/// Lossy channels from a to x and y, channels from each of these to its own taker and to k, and
/// a drain of a and k.
pub const ROUTER: Shape = Shape {
    ports: 3,
    joints: &[
        [0, 0, 10, 0],
        [10, 1, 3, 0],
        [10, 2, 4, 0],
        [10, 3, 9, 0],
        [5, 1, 1, 0],
        [7, 1, 2, 0],
        [3, 1, 11, 0],
        [11, 1, 5, 0],
        [11, 2, 6, 0],
        [4, 1, 12, 0],
        [12, 1, 7, 0],
        [12, 2, 8, 0],
        [6, 1, 13, 0],
        [8, 1, 13, 1],
        [13, 2, 9, 1],
    ],
};
