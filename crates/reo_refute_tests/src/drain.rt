//! Logs for a round of a sync drain between two ports. An item is offered at the first port, and
//! nothing at the second.
use crate::building::{joint, put_together};
use reo_checker::Wrong;
use reo_kinds::{Kind, WriterPort};
use reo_net_base::Joint;
use reo_net_circuit::Circuit;
use reo_refute::check_proof;
use reo_refute_base::ProofFault;
use reo_values::{Kindred, List, NoMemory, Value};
use std::alloc::Global;
use std::process::Abort;
use std::test::Fail;

/// The rows of the first colouring: F R J for the first port, G J for the second, FF RG GR JJ for
/// the drain. The first port requires a reason, and the second gives one.
const FIRST: [u32; 3] = [1, 0, 2];

/// Where the first row of the first port is allowed alone, its item does not flow on.
const AT_0: &[u8] = b"at 0
drop 0 rg 0
drop 0 gr 0
drop 0 gg 0
drop 0 jam 0
drop 0 f 0 2
empty 0
";

/// Where the first row of the drain is allowed alone, nothing flows at the second port.
const AT_2: &[u8] = b"at 2
drop 1 rg 2
drop 1 gr 2
drop 1 gg 2
drop 1 jam 2
empty 1
";

/// Where the second row of the drain is allowed alone, the first port would give a reason.
const AT_5: &[u8] = b"at 5
drop 0 f 0 0
drop 0 rg 2
drop 0 gr 0
drop 0 gg 0
drop 0 jam 0
empty 0
";

/// The first part with a branch for each value of the first joint.
const SPLIT_AT_0: &[u8] = b"at 0
split 0
drop 0 f 0 2
empty 0
drop 0 rg 0
empty 0
drop 0 gr 0
empty 0
drop 0 gg 0
empty 0
drop 0 jam 0
empty 0
";

/// In the branch of its item a split of the joint with this value alone, and then one of the second
/// joint, at which no item flows.
const NESTED_AT_0: &[u8] = b"at 0
split 0
split 0
split 1
drop 0 f 0 2
empty 0
drop 0 f 0 2
empty 0
drop 0 f 0 2
empty 0
drop 0 f 0 2
empty 0
drop 0 rg 0
empty 0
drop 0 gr 0
empty 0
drop 0 gg 0
empty 0
drop 0 jam 0
empty 0
";

/// Logs for the first rows, in pieces, and the first line that is not right.
const LOGS: &[(&[&[u8]], u64)] = &[
    (&[AT_0, AT_2, AT_5], 0),
    (&[SPLIT_AT_0, AT_2, AT_5], 0),
    (&[NESTED_AT_0, AT_2, AT_5], 0),
    (
        &[
            b"at 0\ndrop 0 f 0 2\ndrop 0 rg 0\ndrop 0 gr 0\ndrop 0 gg 0\ndrop 0 jam 0\nempty 0\n",
            AT_2,
            AT_5,
        ],
        0,
    ),
    (&[], 1),
    (&[b"at 0\n"], 2),
    (&[AT_0], 8),
    (
        &[
            AT_0,
            AT_2,
            b"at 5\ndrop 0 f 0 0\ndrop 0 rg 2\ndrop 0 gr 0\ndrop 0 gg 0\ndrop 0 jam 0\nempty 0",
        ],
        20,
    ),
    (&[AT_0, AT_2, AT_5, b"empty 0\n"], 21),
    (&[AT_0, AT_2, AT_5, b"\n"], 21),
    (&[b"at 1\n"], 1),
    (&[b"at 00\n"], 1),
    (&[AT_2, AT_5], 1),
    (&[AT_0, AT_5], 8),
    (&[b"at 0\ndrop 0 f 0 0\n"], 2),
    (&[b"at 0\ndrop 0 f 1 2\n"], 2),
    (&[b"at 0\ndrop 2 rg 0\n"], 2),
    (&[b"at 0\ndrop 0 rg 1\n"], 2),
    (&[b"at 0\ndrop 0 rg 3\n"], 2),
    (&[b"at 0\ndrop 0 rg 0\ndrop 0 rg 0\n"], 3),
    (&[b"at 0\nempty 0\n"], 2),
    (&[b"at 0\nempty 2\n"], 2),
    (&[b"at 0\nsplit 2\n"], 2),
    (&[b"at 0\nat 2\n"], 2),
    (
        &[b"at 0\ndrop 0 rg 0\ndrop 0 gr 0\ndrop 0 gg 0\ndrop 0 jam 0\ndrop 0 f 0 2\nsplit 0\n"],
        7,
    ),
    (&[b"at 0\nsplit 0\ndrop 0 f 0 2\nempty 0\nempty 0\n"], 5),
    (&[b"at 0\nsplit 0\ndrop 0 rg 0\n"], 3),
    (
        &[b"at 0\ndrop 0 rg 0\ndrop 0 gr 0\ndrop 0 gg 0\ndrop 0 jam 0\nempty 0\n"],
        6,
    ),
];

/// Rows that are no colouring, and what is wrong first.
const NO_COLOURINGS: &[(&[u32], Wrong)] = &[
    (&[1, 0], Wrong::Count),
    (&[1, 0, 2, 0], Wrong::Count),
    (&[3, 0, 2], Wrong::Row { primitive: 0 }),
    (&[1, 2, 2], Wrong::Row { primitive: 1 }),
    (&[1, 0, 4], Wrong::Row { primitive: 2 }),
    (&[0, 0, 2], Wrong::Joint { joint: 0 }),
    (&[1, 0, 1], Wrong::Joint { joint: 0 }),
    (&[1, 1, 2], Wrong::Joint { joint: 1 }),
];

fn joints(alloc: Global) -> Result<List<Joint>, NoMemory> {
    let mut list = List::new(alloc);
    list.push(joint([0, 0, 2, 0]))?;
    list.push(joint([1, 0, 2, 1]))?;
    Ok(list)
}

fn primitives(alloc: Global) -> Result<List<Kind>, NoMemory> {
    let mut list = List::new(alloc);
    list.push(Kind::Writer(WriterPort::offering(Kindred::Int(0, 9), Value::Int(3))))?;
    list.push(Kind::Writer(WriterPort::new(Kindred::Int(0, 9))))?;
    list.push(Kind::SyncDrain)?;
    Ok(list)
}

/// The drain between two ports.
fn drain(rt: &impl Abort, alloc: Global) -> Result<Circuit<Kind>, Fail> {
    let joints = joints(alloc)?;
    let primitives = primitives(alloc)?;
    put_together(rt, alloc, primitives, 2, joints)
}

/// The pieces of a text, one after another.
fn text_of(alloc: Global, pieces: &[&[u8]]) -> Result<Vec<u8>, Fail> {
    let mut text = Vec::new(alloc);
    for piece in pieces {
        text.extend_from_slice(*piece)?;
    }
    Ok(text)
}

/// The answer for a line.
fn answer(line: u64) -> Result<(), ProofFault> {
    if line == 0 {
        Ok(())
    } else {
        Err(ProofFault::Line { line })
    }
}

#[test]
fn logs_are_right_or_have_a_first_wrong_line(rt: HostRuntime) -> Result<(), Fail> {
    let circuit = drain(&rt, rt.alloc())?;
    for (pieces, line) in LOGS {
        let log = text_of(rt.alloc(), *pieces)?;
        assert!(rt; check_proof(rt.alloc(), &circuit, 1, &FIRST, &log) == answer(*line));
    }
    Ok(())
}

#[test]
fn rows_that_are_no_colouring_are_found_first(rt: HostRuntime) -> Result<(), Fail> {
    let circuit = drain(&rt, rt.alloc())?;
    for (rows, wrong) in NO_COLOURINGS {
        let answer = Err(ProofFault::Colouring(*wrong));
        assert!(rt; check_proof(rt.alloc(), &circuit, 1, *rows, AT_0) == answer);
    }
    Ok(())
}
