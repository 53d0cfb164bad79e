//! What is no circuit, and the first fault of it.
use crate::circuits::Look::Fault;
use crate::circuits::{Case, all_are_right};
use crate::shapes::Shape;
use reo_net_circuit::NetFault::{Cycle, Ends, Way};

/// A writer, a taker and what stands behind them, with joints.
const CASES: &[Case] = &[
    (
        "the taker's end and one of the channel are in no joint",
        "w3 t+ sync",
        Shape {
            ports: 2,
            joints: &[[0, 0, 2, 0]],
        },
        Fault(Ends { primitive: 1 }),
    ),
    (
        "the writer's end is in two joints, and so is the taker's",
        "w3 t+ sync",
        Shape {
            ports: 2,
            joints: &[[0, 0, 2, 0], [2, 1, 1, 0], [0, 0, 1, 0]],
        },
        Fault(Ends { primitive: 0 }),
    ),
    (
        "the channel's end 0 takes in",
        "w3 t+ sync",
        Shape {
            ports: 2,
            joints: &[[2, 0, 0, 0], [2, 1, 1, 0]],
        },
        Fault(Way { joint: 0 }),
    ),
    (
        "its end 1 gives",
        "w3 t+ sync",
        Shape {
            ports: 2,
            joints: &[[0, 0, 2, 0], [1, 0, 2, 1]],
        },
        Fault(Way { joint: 1 }),
    ),
    (
        "both joints go the wrong way",
        "w3 t+ sync",
        Shape {
            ports: 2,
            joints: &[[2, 0, 0, 0], [1, 0, 2, 1]],
        },
        Fault(Way { joint: 0 }),
    ),
    (
        "ends before ways",
        "w3 t+ sync",
        Shape {
            ports: 2,
            joints: &[[2, 0, 0, 0]],
        },
        Fault(Ends { primitive: 1 }),
    ),
    (
        "two channels in a ring, beside a writer joined to a taker",
        "w3 t+ sync sync",
        Shape {
            ports: 2,
            joints: &[[0, 0, 1, 0], [2, 1, 3, 0], [3, 1, 2, 0]],
        },
        Fault(Cycle { joint: 1 }),
    ),
    (
        "ways before cycles",
        "w3 t+ sync sync",
        Shape {
            ports: 2,
            joints: &[[1, 0, 0, 0], [2, 1, 3, 0], [3, 1, 2, 0]],
        },
        Fault(Way { joint: 0 }),
    ),
    (
        "from a merger to a replicator and back",
        "w3 t+ m2 r2",
        Shape {
            ports: 2,
            joints: &[[0, 0, 2, 0], [3, 1, 1, 0], [3, 2, 2, 1], [2, 2, 3, 0]],
        },
        Fault(Cycle { joint: 2 }),
    ),
];

#[test]
fn no_circuit_has_a_fault(rt: HostRuntime) {
    all_are_right(&rt, rt.alloc(), CASES);
}
