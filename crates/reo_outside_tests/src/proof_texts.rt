//! What stands next in proof texts.
ghost use Rattle.std.specs.Prelude.{◌≡◌, ◌∷◌, [], IfOk, ℕ, List as Items};
ghost use Rattle.reo_net_base.specs.declared.port.Port.{Port as APort};
ghost use Rattle.reo_outside_tests.specs.Told.{told_port, all_told};

use crate::checks::is;
use reo_net_base::{Port, Ports, Way};
use reo_proof_reader::{Next, ProofReader, read_next};
use reo_values::{Bytes, Kindred, List, NoMemory};
use std::alloc::Global;
use std::test::Fail;

/// A port with a name of one byte.
fn port(alloc: Global, name: u8, way: Way, kindred: Kindred) -> Result<Port, NoMemory>
    ensures { IfOk result (λ p. p ≡ told_port name way kindred) }
{
    let mut bytes = Bytes::new(alloc);
    bytes.push(name)?;
    Ok(Port {
        name: bytes,
        way,
        kindred,
    })
}

/// The in port `a` and the out port `b`, which carry numbers, and the out port `c`, which carries
/// texts.
fn ports(alloc: Global) -> Result<Ports, NoMemory>
    ensures { IfOk result (λ p. p.list ≡ all_told) }
{
    let mut list = List::new(alloc);
    list.push(port(alloc, b'a', Way::In, Kindred::Int(0, 9))?)?;
    list.push(port(alloc, b'b', Way::Out, Kindred::Int(0, 9))?)?;
    list.push(port(alloc, b'c', Way::Out, Kindred::Text(9))?)?;
    Ok(Ports { list })
}

/// What stands next.
#[derive(Clone, Copy, PartialEq, Eq)]
enum Stands {
    /// A round whose log has so many bytes in so many lines.
    Round(usize, u64),
    /// An ending.
    Ending,
    /// This line is wrong.
    Wrong(u64),
}

/// What stands first in a text, where the round of a number should.
fn standing(alloc: Global, text: &str, number: u64) -> Result<Stands, NoMemory> {
    let ports = ports(alloc)?;
    let mut reader = ProofReader::new(text.as_bytes());
    match read_next(alloc, &mut reader, &ports, number)? {
        Next::Round {
            line: _,
            log,
            lines,
        } => Ok(Stands::Round(log.len(), lines)),
        Next::Ending(_) => Ok(Stands::Ending),
        Next::Wrong { line } => Ok(Stands::Wrong(line)),
    }
}

const TEXTS: &[(&str, u64, Stands)] = &[
    (
        "round 1: a!3 b?3 | 0 0 0\nproved\ndone after 1 rounds\n",
        1,
        Stands::Round(0, 0),
    ),
    (
        "round 2: idle | 1 0 2\nat 2\ndrop 1 rg 2\nempty 1\nproved\nstuck after 2 rounds\n",
        2,
        Stands::Round(25, 3),
    ),
    (
        "round 1: idle | 0\n\nprove\nproved \nproved\n",
        1,
        Stands::Round(15, 3),
    ),
    (
        "round 1: idle | 0\nproved\nproved\n",
        1,
        Stands::Round(0, 0),
    ),
    ("done after 1 rounds\n", 2, Stands::Ending),
    ("wide in round 3: knot 0\n", 3, Stands::Ending),
    ("", 1, Stands::Wrong(1)),
    ("done after 1 rounds", 2, Stands::Wrong(1)),
    ("done after 1 rounds\n\n", 2, Stands::Wrong(1)),
    ("proved\n", 1, Stands::Wrong(1)),
    ("round 2: idle | 0\nproved\n", 1, Stands::Wrong(1)),
    ("round 1: idle | 0", 1, Stands::Wrong(1)),
    ("round 1: idle | 0\n", 1, Stands::Wrong(2)),
    ("round 1: idle | 0\nproved", 1, Stands::Wrong(2)),
    ("round 1: idle | 0\n proved\n", 1, Stands::Wrong(3)),
    ("round 1: idle | 0\nat 0\ndrop", 1, Stands::Wrong(3)),
];

#[test]
fn what_stands_next_is_found(rt: HostRuntime) -> Result<(), Fail> {
    for (text, number, expected) in TEXTS {
        let found = standing(rt.alloc(), text, *number)?;
        is(&rt, found == *expected, text);
    }
    Ok(())
}
